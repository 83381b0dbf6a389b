ghost use Rattle.std.specs.Prelude.{◌≡◌, ◌≤◌, ◌<◌, ◌^◌, ◌*◌, ◌-◌, IfOk, Ok};
ghost use Rattle.book_entry.specs.Answers.{Reads};
ghost use Rattle.book_entry.specs.Fronts.{AnswersEntry, AnswersShort, Begins, IsFront, ReadsEntry};
ghost use Rattle.book_entry.specs.Numbers.{number_in};
ghost use Rattle.book_entry.specs.Reading.{body_in, counted_in, entry_in, listed_in, most_events};
ghost use Rattle.book_entry.specs.declared.entry.Entry.{Entry};

use crate::entry::Entry;
use crate::fault::{EntryError, Fail};
use crate::input::input_in;
use crate::number::{behind, moment_in, number_in};
use crate::parts::events_in;
use crate::proper::slice_is_proper;
use line_base::Moment;
use std::alloc::Global;

/// The fewest bytes behind an entry's length, and the most.
const LEAST: u128 = 11;

const MOST: u128 = 0xFFFF_FFFF;

/// Reads the entry that bytes begin with, and says how many bytes it is.
///
/// `Short` exactly where the bytes are the front of an entry and end before it does: no bytes at all
/// are one. `Bad` exactly where they neither begin with an entry nor are the front of one, and so
/// at the first byte by which they can't go on to any, those of lengths among them. `Memory` where
/// it was wanting for the entry's texts and bytes.
#[tactic(auto, using(crate::proofs::Exact::reads, crate::proofs::Exact::reads_begun, crate::proofs::Exact::reads_front))]
pub fn read_entry(alloc: Global, bytes: &[u8]) -> Result<(Entry, usize), EntryError>
    ensures answer { ReadsEntry bytes.now result }
    ensures found { (entry : Entry) → Begins bytes.now entry → AnswersEntry result entry }
    ensures front { IsFront bytes.now → AnswersShort result }
{
    slice_is_proper(bytes);
    entry_in(alloc, bytes)
}

#[tactic(auto, unfolding(crate::specs::Reading::entry_in))]
fn entry_in(alloc: Global, bytes: &[u8]) -> Result<(Entry, usize), EntryError>
    ensures { Reads (entry_in bytes.now) result }
{
    let count = length_in(bytes)?;
    let entry = body_in(alloc, count, behind(bytes, 4))?;
    Ok((entry, count + 4))
}

/// How many bytes follow.
fn length_in(bytes: &[u8]) -> Result<usize, Fail>
    ensures found { result ≡ number_in 4 11 (2 ^ 32 - 1) bytes.now }
    ensures least { IfOk result (λ count. 11 ≤ count) }
    ensures most { IfOk result (λ count. count < 2 ^ 32) }
{
    let count = number_in(bytes, 4, LEAST, MOST)?;
    Ok(count as usize)
}

/// What stands behind the length, which is so many bytes.
#[tactic(auto, unfolding(crate::specs::Reading::body_in))]
fn body_in(alloc: Global, count: usize, bytes: &[u8]) -> Result<Entry, EntryError>
    requires { 11 ≤ count }
    ensures { Reads (body_in count bytes.now) result }
{
    let moment = moment_in(bytes)?;
    counted_in(alloc, moment, count - 8, behind(bytes, 8))
}

/// The count of events, and what is counted.
#[tactic(auto, unfolding(crate::specs::Reading::counted_in))]
fn counted_in(
    alloc: Global,
    moment: Moment,
    count: usize,
    bytes: &[u8],
) -> Result<Entry, EntryError>
    requires { 3 ≤ count }
    ensures { Reads (counted_in moment count bytes.now) result }
{
    let events = count_in(count, bytes)?;
    listed_in(alloc, moment, events, count - 2, behind(bytes, 2))
}

/// How many events there are in so many bytes, in which their count and an input stand too.
fn count_in(count: usize, bytes: &[u8]) -> Result<usize, Fail>
    requires { 3 ≤ count }
    ensures found { result ≡ number_in 2 0 (most_events count) bytes.now }
    ensures most { IfOk result (λ events. events ≤ most_events count) }
{
    let most = ((count - 3) / 3).min(65535);
    let events = number_in(bytes, 2, 0, most as u128)?;
    Ok(events as usize)
}

/// So many events, and an input.
#[tactic(auto, unfolding(crate::specs::Reading::listed_in))]
fn listed_in(
    alloc: Global,
    moment: Moment,
    events: usize,
    count: usize,
    bytes: &[u8],
) -> Result<Entry, EntryError>
    requires few { events ≤ 65535 }
    requires room { 3 * events < count }
    ensures { Reads (listed_in moment events count bytes.now) result }
{
    let sensed = events_in(alloc, events, bytes)?;
    let input = input_in(alloc, count - 3 * events, behind(bytes, 3 * events))?;
    Ok(Entry {
        sensed,
        input,
        moment,
    })
}
