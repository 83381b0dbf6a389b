//! A run over a book: each step's entry is kept before any of its text, its log or its drives goes
//! out.

ghost use Rattle.std.specs.Prelude.{◌≡◌, ◌≤◌, true, false, [], None, IfSome, IfOk, length};
ghost use Rattle.node_run.specs.Booked.{BookedEnds, HasBookedCauses, IsBookedStatus, differ, entries_if, most_book};
ghost use Rattle.node_run.specs.Booking.{Appends, DoesOnceKept, GoesOut, IsOnceBooked, KeepsStep};
ghost use Rattle.node_run.specs.Gone.{begins_again};
ghost use Rattle.node_run.specs.Moving.{IsEndCaused, IsRunEnd};
ghost use Rattle.line_outside.specs.Faults.{Rose};
ghost use Rattle.node_run.specs.State.{resumed};
ghost use Rattle.node_run.specs.Told.{neighbours_of, rules_of};
ghost use Rattle.node_run.specs.declared.booked.Keeping.TheVariants as keepings;

use crate::moves::{make_move, moment_of};
use crate::place::Next;
use crate::rules::Rules;
use crate::run::{Run, channels};
use crate::running::ROOM_BYTES;
use crate::status::NodeStatus;
use book_keeper::{Keeper, Kept2};
use line_base::Memory;
use line_outside::{Clock, Ports, Pushed, Sink, push_all};
use machine_log::Drives;
use node_core::Node;
use node_settings::Settings;
use std::alloc::Global;

/// How many bytes a book has at most.
pub const MOST_BOOK_BYTES: u64 = 1_073_741_824;

/// How a run over a book ends.
#[derive(Clone, Copy, Debug, PartialEq, Eq)]
pub enum BookedStatus {
    /// As one without a book.
    Node(NodeStatus),
    /// The book could not keep an entry.
    BookFault,
    /// With the next entry the book would have too many bytes.
    BookFull,
}

/// Whether the entry of a move's step is in the book now, if the move made one.
#[derive(Clone, Copy)]
enum Keeping {
    Done,
    Full,
    Fault,
    Memory,
}

/// Runs a machine with these settings, which has made the steps of a book of so many bytes and has these
/// drives. It begins with turn 0, in which it listens and then hears which connections are gone. Each further
/// step's entry is appended to the book before anything of that step goes out.
///
/// It ends as a run without a book; or by `BookFault` where the book failed, or by `BookFull` where it
/// would have more than 1,073,741,824 bytes with the next entry. Of the step that isn't in the book then
/// nothing went out.
pub fn run_booked<P: Ports, C: Clock, K: Sink, B: Keeper>(
    alloc: Global,
    settings: Settings,
    node: Node,
    drives: Drives,
    size: u64,
    ports: &mut P,
    clock: &mut C,
    log: &mut K,
    book: &mut B,
) -> BookedStatus
    requires size { size ≤ most_book }
    requires turns { 1 ≤ settings.turns }
    // the calls, the log, the book and the end are those of the run, each of its moves at a moment of the clock
    ensures runs { BookedEnds (C.moment clock.old) (rules_of settings)
        (resumed (neighbours_of settings) node drives) size (P.given ports.old) (P.given ports.new)
        (K.contents log.old) (K.contents log.new) (B.contents book.old) (B.contents book.new)
        result }
    ensures fits { IsBookedStatus result }
    ensures causes { HasBookedCauses result (P.faults ports.old) (P.faults ports.new)
        (K.faults log.old) (K.faults log.new) (B.faults book.old) (B.faults book.new) }
{
    let mut room = match vec![in alloc; 0u8; ROOM_BYTES] {
        Ok(room) => room,
        Err(_) => {
            drop(node);
            return BookedStatus::Node(NodeStatus::Memory);
        }
    };
    let mut run = match resumed_run(alloc, settings, node, drives) {
        Ok(run) => run,
        Err(_) => return BookedStatus::Node(NodeStatus::Memory),
    };
    let status = run_kept(&mut run, size, room.as_mut_slice(), ports, clock, log, book);
    drop(run);
    status
}

/// The run of a machine that begins again, before turn 0. It takes the memory of two cutters.
fn resumed_run(alloc: Global, settings: Settings, node: Node, drives: Drives) -> Result<Run, Memory>
    ensures { IfOk result
        (λ run. run
        ≡ record {
          rules = rules_of settings;
          state = resumed (neighbours_of settings) node drives;
          told = [];
        }) }
{
    let (channel, config) = match channels(alloc) {
        Ok(both) => both,
        Err(Memory) => {
            drop(node);
            return Err(Memory);
        }
    };
    let Settings {
        identity,
        places: _,
        bridge: _,
        connections,
        turns,
        panel,
    } = settings;
    let neighbours = config_service::Settings {
        upstream: connections.upstream,
        port: connections.downstream_port,
    };
    let rules = Rules {
        number: identity.number,
        machine_id: identity.machine_id,
        connections,
        turns,
        panel,
    };
    let mut run = Run::new(alloc, rules, neighbours, node, channel, config);
    run.resume(drives);
    Ok(run)
}

/// Makes the moves of a run one after the other, until it ends.
fn run_kept<P: Ports, C: Clock, K: Sink, B: Keeper>(
    run: &mut Run,
    size: u64,
    room: &mut [u8],
    ports: &mut P,
    clock: &mut C,
    log: &mut K,
    book: &mut B,
) -> BookedStatus
    requires size { size ≤ most_book }
    requires room { length room.old ≡ 4096 }
    requires turns { 1 ≤ run.old.rules.turns }
    requires rest { length run.old.state.rest ≤ 4096 }
    requires ended { run.old.state.ended ≡ None }
    ensures runs { BookedEnds (C.moment clock.old) run.old.rules run.old.state size
        (P.given ports.old) (P.given ports.new) (K.contents log.old) (K.contents log.new)
        (B.contents book.old) (B.contents book.new) result }
    ensures fits { IsBookedStatus result }
    ensures causes { HasBookedCauses result (P.faults ports.old) (P.faults ports.new)
        (K.faults log.old) (K.faults log.new) (B.faults book.old) (B.faults book.new) }
{
    let mut length = size;
    loop {
        if let Some(status) = move_kept(run, &mut length, room, ports, clock, log, book) {
            return status;
        }
        run.is_short();
    }
}

/// Makes the next move; then its step's entry goes into the book, if it made a step, and then its lines go
/// to the log. Answers how the run ends, if it does.
fn move_kept<P: Ports, C: Clock, K: Sink, B: Keeper>(
    run: &mut Run,
    size: &mut u64,
    room: &mut [u8],
    ports: &mut P,
    clock: &mut C,
    log: &mut K,
    book: &mut B,
) -> Option<BookedStatus>
    requires size { size.old ≤ most_book }
    requires room { length room.old ≡ 4096 }
    requires turns { 1 ≤ run.old.rules.turns }
    requires rest { length run.old.state.rest ≤ 4096 }
    requires ended { IsRunEnd run.old.state.ended }
    ensures rules { result ≡ None → run.new.rules ≡ run.old.rules }
    ensures clock { C.moment clock.new ≡ C.moment clock.old }
    ensures does { DoesOnceKept result (C.moment clock.old) run.old.rules run.old.state
        run.new.state size.old size.new (P.given ports.old) (P.given ports.new)
        (K.contents log.old) (K.contents log.new) (B.contents book.old) (B.contents book.new) }
    ensures rest { result ≡ None → length run.new.state.rest ≤ 4096 }
    ensures ended { result ≡ None
        → IsEndCaused run.new.state.ended (P.faults ports.old) (P.faults ports.new) }
    ensures ports { P.faults ports.old ≤ P.faults ports.new }
    ensures log { K.faults log.old ≤ K.faults log.new }
    ensures book { B.faults book.old ≤ B.faults book.new }
    ensures status { IfSome result
        (λ status. IsOnceBooked run.old.state.ended status (K.faults log.old) (K.faults log.new)
        (B.faults book.old) (B.faults book.new)) }
{
    if run.begins_again() {
        return hear_kept(run, size, ports, clock, log, book);
    }
    next_kept(run, size, room, ports, clock, log, book)
}

/// In turn 0 a machine that begins again hears what is gone. The ports aren't called.
fn hear_kept<P: Ports, C: Clock, K: Sink, B: Keeper>(
    run: &mut Run,
    size: &mut u64,
    ports: &mut P,
    clock: &mut C,
    log: &mut K,
    book: &mut B,
) -> Option<BookedStatus>
    requires again { begins_again run.old.state ≡ true }
    requires size { size.old ≤ most_book }
    requires turns { 1 ≤ run.old.rules.turns }
    requires rest { length run.old.state.rest ≤ 4096 }
    ensures rules { result ≡ None → run.new.rules ≡ run.old.rules }
    ensures clock { C.moment clock.new ≡ C.moment clock.old }
    ensures does { DoesOnceKept result (C.moment clock.old) run.old.rules run.old.state
        run.new.state size.old size.new (P.given ports.old) (P.given ports.new)
        (K.contents log.old) (K.contents log.new) (B.contents book.old) (B.contents book.new) }
    ensures rest { result ≡ None → length run.new.state.rest ≤ 4096 }
    ensures ended { result ≡ None
        → IsEndCaused run.new.state.ended (P.faults ports.old) (P.faults ports.new) }
    ensures ports { P.faults ports.old ≤ P.faults ports.new }
    ensures log { K.faults log.old ≤ K.faults log.new }
    ensures book { B.faults book.old ≤ B.faults book.new }
    ensures status { IfSome result
        (λ status. IsOnceBooked run.old.state.ended status (K.faults log.old) (K.faults log.new)
        (B.faults book.old) (B.faults book.new)) }
{
    run.begin_move();
    let odd = run.made_odd_steps();
    let moment = moment_of(clock);
    if let Err(Memory) = run.hear_gone(moment) {
        return Some(BookedStatus::Node(NodeStatus::Memory));
    }
    go_out(run, odd, size, log, book)
}

/// The move that comes next in every run.
fn next_kept<P: Ports, C: Clock, K: Sink, B: Keeper>(
    run: &mut Run,
    size: &mut u64,
    room: &mut [u8],
    ports: &mut P,
    clock: &mut C,
    log: &mut K,
    book: &mut B,
) -> Option<BookedStatus>
    requires again { begins_again run.old.state ≡ false }
    requires size { size.old ≤ most_book }
    requires room { length room.old ≡ 4096 }
    requires rest { length run.old.state.rest ≤ 4096 }
    requires ended { IsRunEnd run.old.state.ended }
    ensures rules { result ≡ None → run.new.rules ≡ run.old.rules }
    ensures clock { C.moment clock.new ≡ C.moment clock.old }
    ensures does { DoesOnceKept result (C.moment clock.old) run.old.rules run.old.state
        run.new.state size.old size.new (P.given ports.old) (P.given ports.new)
        (K.contents log.old) (K.contents log.new) (B.contents book.old) (B.contents book.new) }
    ensures rest { result ≡ None → length run.new.state.rest ≤ 4096 }
    ensures ended { result ≡ None
        → IsEndCaused run.new.state.ended (P.faults ports.old) (P.faults ports.new) }
    ensures ports { P.faults ports.old ≤ P.faults ports.new }
    ensures log { K.faults log.old ≤ K.faults log.new }
    ensures book { B.faults book.old ≤ B.faults book.new }
    ensures status { IfSome result
        (λ status. IsOnceBooked run.old.state.ended status (K.faults log.old) (K.faults log.new)
        (B.faults book.old) (B.faults book.new)) }
{
    run.begin_move();
    let next = run.next();
    if let Next::End(status) = next {
        return Some(BookedStatus::Node(status));
    }
    let odd = run.made_odd_steps();
    if let Err(Memory) = make_move(run, next, room, ports, clock) {
        return Some(BookedStatus::Node(NodeStatus::Memory));
    }
    go_out(run, odd, size, log, book)
}

/// What a move made goes out: THE ENTRY OF ITS STEP FIRST, and then its lines.
fn go_out<K: Sink, B: Keeper>(
    run: &Run,
    odd: bool,
    size: &mut u64,
    log: &mut K,
    book: &mut B,
) -> Option<BookedStatus>
    requires { size.old ≤ most_book }
    ensures out { GoesOut result (differ odd run.now.state.step.odd) run.now.state.step.entry
        run.now.told size.old size.new (K.contents log.old) (K.contents log.new)
        (B.contents book.old) (B.contents book.new) }
    ensures log { K.faults log.old ≤ K.faults log.new }
    ensures book { B.faults book.old ≤ B.faults book.new }
    ensures status { IfSome result
        (λ status. IsOnceBooked None status (K.faults log.old) (K.faults log.new)
        (B.faults book.old) (B.faults book.new)) }
{
    match keep_step(run, odd, size, book) {
        Keeping::Done => match push_all(log, run.told()) {
            Pushed::Whole => None,
            Pushed::Failed => Some(BookedStatus::Node(NodeStatus::LogFault)),
        },
        Keeping::Full => Some(BookedStatus::BookFull),
        Keeping::Fault => Some(BookedStatus::BookFault),
        Keeping::Memory => Some(BookedStatus::Node(NodeStatus::Memory)),
    }
}

/// Keeps the entry of the last step, if there was one more since the count of steps was odd, or wasn't.
fn keep_step<B: Keeper>(run: &Run, odd: bool, size: &mut u64, book: &mut B) -> Keeping
    requires { size.old ≤ most_book }
    ensures keeps { KeepsStep result (differ odd run.now.state.step.odd)
        run.now.state.step.entry size.old size.new (B.contents book.old) (B.contents book.new) }
    ensures counted { B.faults book.old ≤ B.faults book.new }
    ensures cause { result ≡ keepings.Fault → Rose (B.faults book.old) (B.faults book.new) }
{
    if !run.made_step_since(odd) {
        return Keeping::Done;
    }
    let entry = match run.spell_step() {
        Ok(entry) => entry,
        Err(Memory) => return Keeping::Memory,
    };
    append(entry.as_slice(), size, book)
}

/// Appends an entry, unless the book would have too many bytes then.
fn append<B: Keeper>(entry: &[u8], size: &mut u64, book: &mut B) -> Keeping
    requires { size.old ≤ most_book }
    ensures appends { Appends result entry.now size.old size.new (B.contents book.old)
        (B.contents book.new) }
    ensures counted { B.faults book.old ≤ B.faults book.new }
    ensures cause { result ≡ keepings.Fault → Rose (B.faults book.old) (B.faults book.new) }
{
    let count = entry.len() as u64;
    if count > MOST_BOOK_BYTES - *size {
        return Keeping::Full;
    }
    match book.keep(entry) {
        Kept2::Done => {
            *size += count;
            Keeping::Done
        }
        Kept2::Failed => Keeping::Fault,
    }
}
