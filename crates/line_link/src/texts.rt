ghost use Rattle.std.specs.Prelude.{◌≡◌, ◌<◌, ◌≤◌, [], ◌∷◌, ◌++◌, true, OnOk, OnErr, drop, length, option_map, slice_get, take};
ghost use Rattle.std.specs.List.{list_all};
ghost use Rattle.line_link.specs.Texts.{bytes_of, is_filled, with_byte_in_first};

use line_base::Memory;
use std::alloc::Global;
use std::collections::VecDeque;
use std::marker::Model;

/// Texts, none of them empty, whose bytes stand one behind the other, so that they can be lent
/// together.
///
/// It is seen as the list of the texts.
#[derive(Debug, Drop)]
pub struct Texts {
    bytes: Vec<u8>,
    /// The length of each text.
    lengths: VecDeque<usize>,
    /// Where the first text begins.
    start: usize,
}

impl Model for Texts {
    ghost use Rattle.std.specs.Prelude.{List, ℕ, drop};
    ghost use Rattle.line_link.specs.Parts.{IsCutUp, parts};

    ghost Value = { List (List ℕ) };

    ghost view = { λ texts. parts texts.lengths.items (drop texts.start texts.bytes.items) };

    ghost invariant = { λ texts. IsCutUp texts.start texts.lengths.items texts.bytes.items };
}

impl Texts {
    /// No texts.
    pub fn new(alloc: Global) -> Texts
        ensures { result ≡ [] }
    {
        Texts {
            bytes: Vec::new(alloc),
            lengths: VecDeque::new(alloc),
            start: 0,
        }
    }

    /// The bytes of all texts, one behind the other.
    pub fn bytes(&self) -> &[u8]
        ensures bytes { result.now ≡ bytes_of self.now }
        ensures filled { list_all is_filled self.now ≡ true }
    {
        &self.bytes[self.start..]
    }

    /// The length of the first text.
    pub fn first(&self) -> Option<usize>
        ensures { result ≡ option_map length (slice_get self.now 0) }
    {
        self.lengths.front().copied()
    }

    /// Adds a text behind the others. `Memory` where there is no room; all is then as it was.
    pub fn push(&mut self, text: &[u8]) -> Result<(), Memory>
        requires { 0 < length text.now }
        ensures ok { OnOk result (self.new ≡ self.old ++ text.now ∷ []) }
        ensures memory { OnErr result (self.new ≡ self.old) }
    {
        self.close_up();
        if let Err(_) = self.lengths.reserve(1) {
            return Err(Memory);
        }
        if let Err(_) = self.bytes.extend_from_slice(text) {
            return Err(Memory);
        }
        self.lengths.push_back_reserved(text.len());
        Ok(())
    }

    /// Takes the first text away.
    pub fn drop_first(&mut self)
        requires { 0 < length self.old }
        ensures { self.new ≡ drop 1 self.old }
    {
        self.skip_first();
        self.tidy();
    }

    /// Puts a byte into the first text. `Memory` where there is no room; all is then as it was.
    pub fn put_in_first(&mut self, at: usize, byte: u8) -> Result<(), Memory>
        requires first { 0 < length self.old }
        requires within { at ≤ length (bytes_of (take 1 self.old)) }
        ensures ok { OnOk result (self.new ≡ with_byte_in_first at byte self.old) }
        ensures memory { OnErr result (self.new ≡ self.old) }
    {
        if let Err(_) = self.bytes.insert(self.start + at, byte) {
            return Err(Memory);
        }
        self.lengths[0] += 1;
        Ok(())
    }

    /// Takes all texts away.
    pub fn clear(&mut self)
        ensures { self.new ≡ [] }
    {
        self.bytes.clear();
        self.lengths.clear();
        self.start = 0;
    }

    fn skip_first(&mut self)
        requires { 0 < length self.old }
        ensures { self.new ≡ drop 1 self.old }
    {
        if let Some(length) = self.lengths.pop_front() {
            self.start += length;
        }
    }

    /// Gives back the room in front of the first text where there are no texts.
    fn tidy(&mut self)
        ensures { self.new ≡ self.old }
    {
        if self.lengths.is_empty() {
            self.bytes.clear();
            self.start = 0;
        }
    }

    /// Gives back the room in front of the first text where it is more than that of the texts.
    fn close_up(&mut self)
        ensures { self.new ≡ self.old }
    {
        let live = self.bytes.len() - self.start;
        if self.start > live {
            self.bytes.rotate_left(self.start);
            self.bytes.truncate(live);
            self.start = 0;
        }
    }
}
