ghost use Rattle.std.specs.Prelude.{◌≡◌, ◌+◌, ◌^◌, ◌<◌, ◌≤◌, [], OnOk, OnErr, length, take, true};
ghost use Rattle.line_link.specs.Flow.{coming, dry, flowing, is_begun, reached, with_arrival, with_nul, with_text};

use crate::texts::Texts;
use line_base::Memory;
use std::alloc::Global;
use std::marker::Model;

/// What flows in one direction of a link: the texts that have not wholly arrived, and how many
/// bytes of the oldest have.
#[derive(Debug, Drop)]
pub struct Flow {
    texts: Texts,
    arrived: usize,
}

impl Model for Flow {
    ghost use Rattle.std.specs.Prelude.{◌≡◌, true};
    ghost use Rattle.line_link.specs.Flow.{Stream, is_begun};

    ghost Value = { Stream };

    ghost view = { λ flow. record { texts = flow.texts; arrived = flow.arrived } };

    ghost invariant = { λ flow. is_begun flow.texts flow.arrived ≡ true };
}

impl Flow {
    /// Nothing is on its way.
    pub fn new(alloc: Global) -> Flow
        ensures { result ≡ dry }
    {
        Flow {
            texts: Texts::new(alloc),
            arrived: 0,
        }
    }

    /// Of the oldest text not all has arrived, and where there is none nothing has.
    pub fn together(&self)
        ensures { is_begun self.now.texts self.now.arrived ≡ true }
    {
        let _arrived = self.arrived;
    }

    /// How many bytes have not arrived.
    pub fn coming(&self) -> usize
        ensures count { result ≡ length (coming self.now) }
        ensures fits { self.now.arrived + length (coming self.now) < 2 ^ 64 }
    {
        self.texts.bytes().len() - self.arrived
    }

    /// How many bytes arrive: so many or what there is, or the rest of the oldest text.
    pub fn flowing(&self, count: Option<u32>) -> usize
        ensures count { result ≡ flowing count self.now }
        ensures within { result ≤ length (coming self.now) }
    {
        match count {
            Some(count) => (count as usize).min(self.coming()),
            None => self.rest_of_text(),
        }
    }

    fn rest_of_text(&self) -> usize
        ensures count { result ≡ flowing None self.now }
        ensures within { result ≤ length (coming self.now) }
    {
        match self.texts.first() {
            Some(length) => length - self.arrived,
            None => 0,
        }
    }

    /// The next bytes to arrive.
    pub fn next(&self, count: usize) -> &[u8]
        requires { count ≤ length (coming self.now) }
        ensures { result.now ≡ take count (coming self.now) }
    {
        &self.texts.bytes()[self.arrived..self.arrived + count]
    }

    /// So many bytes arrive.
    pub fn arrive(&mut self, count: usize)
        requires { count ≤ length (coming self.old) }
        ensures { self.new ≡ with_arrival count self.old }
    {
        let _most = self.coming();
        self.arrived = reach(&mut self.texts, self.arrived + count);
    }

    /// A text is sent. `Memory` where there is no room; all is then as it was.
    pub fn push(&mut self, text: &[u8]) -> Result<(), Memory>
        ensures ok { OnOk result (self.new ≡ with_text text.now self.old) }
        ensures memory { OnErr result (self.new ≡ self.old) }
    {
        if text.is_empty() {
            return Ok(());
        }
        self.texts.push(text)
    }

    /// A NUL byte is put before the next byte to arrive. `Memory` where there is no room; all is
    /// then as it was.
    pub fn put_nul(&mut self) -> Result<(), Memory>
        ensures ok { OnOk result (self.new ≡ with_nul self.old) }
        ensures memory { OnErr result (self.new ≡ self.old) }
    {
        if self.texts.first().is_none() {
            return self.texts.push(&[0]);
        }
        self.texts.put_in_first(self.arrived, 0)
    }

    /// Nothing is on its way any more.
    pub fn clear(&mut self)
        ensures { self.new ≡ dry }
    {
        self.texts.clear();
        self.arrived = 0;
    }
}

/// Takes away the texts that have wholly arrived where so many bytes have, and answers how many
/// bytes of the first that is left have.
fn reach(texts: &mut Texts, count: usize) -> usize
    ensures { record { texts = texts.new; arrived = result } ≡ reached count texts.old }
{
    let mut left = count;
    while let Some(length) = texts.first() {
        if left < length {
            return left;
        }
        left -= length;
        texts.drop_first();
    }
    0
}
