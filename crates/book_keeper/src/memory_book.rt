ghost use Rattle.std.specs.Prelude.{◌≡◌, ◌+◌, ◌-◌, ◌^◌, ◌<◌, ◌≤◌, ℕ, List, Some, IfOk, drop, length, min, option_map, vec_len, vec_capacity};
ghost use Rattle.line_outside.specs.Source.{Gives, HasPullCause};
ghost use Rattle.line_outside.specs.Tape.{pulled};
ghost use Rattle.book_keeper.specs.Keeping.{Cuts, HasKeepCause, Keeps};
ghost use Rattle.book_keeper.specs.Shelf.{Shelf, contents_after, cut_to, faults_after, keeps_at, told};
ghost use Rattle.book_keeper.specs.declared.keeper.Kept2.TheVariants as kept;

use crate::keeper::{Keeper, Kept2};
use line_base::Memory;
use line_outside::{Pull, Source, SteadySource};
use std::alloc::Global;
use std::marker::Model;

/// A book in memory, of which the listed calls of `keep` fail and no others.
///
/// The room for what is appended is taken when it is made. An entry that doesn't fit what is left of
/// it is dropped, and from then on the book doesn't tell its bytes.
#[derive(Debug, Drop)]
pub struct MemoryBook {
    bytes: Vec<u8>,
    dropped: bool,
    source: SteadySource,
    room: usize,
    failing: Vec<u64>,
    calls: u64,
    faults: u64,
}

impl Model for MemoryBook {
    ghost Value = { Shelf };

    ghost view = { λ book. record {
      contents = told book.dropped book.bytes.items;
      left = book.source;
      room = book.room;
      failing = book.failing.items;
      calls = book.calls;
      faults = book.faults;
    } };

    ghost invariant = { λ book. vec_len book.bytes + book.room ≤ vec_capacity book.bytes };
}

/// The bytes, with room for so many more.
fn roomy(alloc: Global, bytes: &[u8], room: usize) -> Result<Vec<u8>, Memory>
    ensures items { IfOk result (λ all. all.items ≡ bytes.now) }
    ensures room { IfOk result (λ all. vec_len all + room ≤ vec_capacity all) }
{
    let Some(capacity) = bytes.len().checked_add(room) else {
        return Err(Memory);
    };
    let mut all = Vec::with_capacity(alloc, capacity)?;
    all.extend_from_slice(bytes)?;
    Ok(all)
}

impl MemoryBook {
    /// A book of these bytes with room for so many more. `failing` lists the numbers of the calls of
    /// `keep` that fail, from 1.
    pub fn new(
        alloc: Global,
        bytes: &[u8],
        room: usize,
        failing: &[u64],
    ) -> Result<MemoryBook, Memory>
        ensures { IfOk result (λ book. book
            ≡ record {
              contents = Some bytes.now;
              left = bytes.now;
              room = room;
              failing = failing.now;
              calls = 0;
              faults = 0;
            }) }
    {
        let all = roomy(alloc, bytes, room)?;
        let source = SteadySource::new(alloc, bytes)?;
        let failing = Vec::from_slice(alloc, failing)?;
        Ok(MemoryBook {
            bytes: all,
            dropped: false,
            source,
            room,
            failing,
            calls: 0,
            faults: 0,
        })
    }

    /// Its bytes, where it still tells them.
    pub fn contents(&self) -> Option<&[u8]>
        ensures { option_map (λ bytes. bytes.now) result ≡ self.now.contents }
    {
        if self.dropped {
            return None;
        }
        Some(self.bytes.as_slice())
    }
}

impl Keeper for MemoryBook {
    ghost contents = { λ book. book.contents };

    ghost left = { λ book. Some book.left };

    ghost faults = { λ book. book.faults };

    fn pull(&mut self, room: &mut [u8]) -> Pull
        requires { 0 < length room.old }
        ensures gives { Gives (Some self.old.left) (Some self.new.left) result room.new }
        ensures stays { self.new.contents ≡ self.old.contents }
        ensures cause { HasPullCause self.old.faults self.new.faults result }
        // it never fails
        ensures answer { result ≡ pulled self.old.left (length room.old) }
        ensures others { self.new ≡ record self.old { left = self.new.left } }
    {
        self.source.pull(room)
    }

    fn cut(&mut self, length: u64) -> Kept2
        ensures cuts { Cuts self.old.contents self.new.contents result length }
        ensures cause { HasKeepCause self.old.faults self.new.faults result }
        // it never fails
        ensures answer { result ≡ kept.Done }
        ensures others { self.new
            ≡ record self.old { contents = cut_to self.old.contents length } }
    {
        let count = length.min(self.bytes.len() as u64);
        self.bytes.truncate(count as usize);
        Kept2::Done
    }

    fn keep(&mut self, entry: &[u8]) -> Kept2
        ensures keeps { Keeps self.old.contents self.new.contents result entry.now }
        ensures cause { HasKeepCause self.old.faults self.new.faults result }
        // the listed calls fail, and no others
        ensures answer { result ≡ keeps_at self.old }
        ensures contents { self.new.contents ≡ contents_after self.old entry.now }
        // each failed call is counted, and no other
        ensures faults { self.new.faults ≡ faults_after self.old.faults result }
        ensures counted { self.new.calls ≡ min (self.old.calls + 1) (2 ^ 64 - 1) }
        ensures failing { self.new.failing ≡ self.old.failing }
        ensures left { self.new.left ≡ self.old.left }
    {
        self.calls = self.calls.saturating_add(1);
        if self.failing.contains(&self.calls) {
            self.faults = self.faults.saturating_add(1);
            return Kept2::Failed;
        }
        if self.dropped || self.room < entry.len() {
            self.dropped = true;
            return Kept2::Done;
        }
        self.room -= entry.len();
        self.bytes.extend_from_slice(entry).unwrap();
        Kept2::Done
    }
}
