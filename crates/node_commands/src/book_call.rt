ghost use Rattle.std.specs.Prelude.{◌≡◌, ◌≤◌, ◌<◌, ◌^◌, IfOk};
ghost use Rattle.node_commands.specs.Books.{DoesNodeBook, DoesTaking, DoesTold, FitsNodeBook, HasBookCauses, HasRestCauses, IsRestStatus, IsTakingStatus, MendsAndRuns, book_status, outside};
ghost use Rattle.node_commands.specs.Command.{is_one};
ghost use Rattle.node_commands.specs.declared.book_status.BookStatus.TheVariants as ends;
ghost use Rattle.node_run.specs.Booked.{most_book};
ghost use Rattle.node_run.specs.Told.{profile_of};

use crate::book_file::{BookError, read_book};
use crate::book_status::BookStatus;
use crate::main_call::status_of;
use crate::settings_file::{FileError, read_file};
use crate::taking::{Guarded, Taken, mend};
use book_keeper::{Keeper, Kept2};
use line_base::{Memory, Words};
use line_outside::{Clock, Ports, Sink, Source};
use node_core::NodeProfile;
use node_run::{BookedStatus, NodeStatus, run_booked};
use node_settings::{Settings, read_settings};
use restart_book::{ResumeError, Resumed, resume};
use std::alloc::Global;

/// Runs the machine whose settings are in the file that the one word names, from where its book leads:
/// as `run_named`; the book is taken first, what follows its whole entries is cut off, and the entry
/// of each further step is in the book before anything of that step goes out. `node_book_main` of
/// `node_cli`, which says more of it, is this call with all that holds of it.
pub fn run_with_book<S: Source, P: Ports, C: Clock, K: Sink, B: Guarded>(
    alloc: Global,
    words: &Words,
    file: &mut S,
    ports: &mut P,
    clock: &mut C,
    log: &mut K,
    book: &mut B,
) -> BookStatus
    ensures does { DoesNodeBook (is_one words.now) (S.left file.old) (B.busy book.old)
        (B.left book.old) (C.moment clock.old) (outside (P.given ports.old) (K.contents log.old) (B.contents book.old))
        (outside (P.given ports.new) (K.contents log.new) (B.contents book.new)) result }
    ensures fits { FitsNodeBook (is_one words.now) result }
    ensures causes { HasBookCauses result (S.faults file.old) (S.faults file.new)
        (P.faults ports.old) (P.faults ports.new) (K.faults log.old) (K.faults log.new)
        (B.faults book.old) (B.faults book.new) }
    ensures unread { result ≡ ends.BookBusy → B.left book.new ≡ B.left book.old }
{
    if words.list().len() != 1 {
        return BookStatus::Node(NodeStatus::Usage);
    }
    let bytes = match read_file(alloc, file) {
        Ok(bytes) => bytes,
        Err(FileError::Fault) => return BookStatus::Node(NodeStatus::ReadFault),
        Err(FileError::Memory) => return BookStatus::Node(NodeStatus::Memory),
    };
    match read_settings(alloc, bytes.as_slice()) {
        Ok(settings) => take_book(alloc, settings, ports, clock, log, book),
        Err(error) => BookStatus::Node(status_of(error)),
    }
}

/// Takes the book, unless another process has it, and begins again from it.
fn take_book<P: Ports, C: Clock, K: Sink, B: Guarded>(
    alloc: Global,
    settings: Settings,
    ports: &mut P,
    clock: &mut C,
    log: &mut K,
    book: &mut B,
) -> BookStatus
    requires least { 1 ≤ settings.places.capacity }
    requires most { settings.places.capacity ≤ 1024 }
    requires used { settings.places.used < 2 ^ 48 }
    requires turns { 1 ≤ settings.turns }
    ensures does { DoesTaking (B.busy book.old) (C.moment clock.old) settings (B.left book.old)
        (outside (P.given ports.old) (K.contents log.old) (B.contents book.old))
        (outside (P.given ports.new) (K.contents log.new) (B.contents book.new)) result }
    ensures fits { IsTakingStatus result }
    ensures causes { HasRestCauses result (P.faults ports.old) (P.faults ports.new)
        (K.faults log.old) (K.faults log.new) (B.faults book.old) (B.faults book.new) }
    ensures unread { result ≡ ends.BookBusy → B.left book.new ≡ B.left book.old }
{
    match book.take() {
        Taken::Done => begin_again(alloc, settings, ports, clock, log, book),
        Taken::Busy => BookStatus::BookBusy,
        Taken::Failed => BookStatus::BookFault,
    }
}

/// Begins again from the book, and runs on.
fn begin_again<P: Ports, C: Clock, K: Sink, B: Keeper>(
    alloc: Global,
    settings: Settings,
    ports: &mut P,
    clock: &mut C,
    log: &mut K,
    book: &mut B,
) -> BookStatus
    requires least { 1 ≤ settings.places.capacity }
    requires most { settings.places.capacity ≤ 1024 }
    requires used { settings.places.used < 2 ^ 48 }
    requires turns { 1 ≤ settings.turns }
    ensures does { DoesTold (C.moment clock.old) settings (B.left book.old)
        (outside (P.given ports.old) (K.contents log.old) (B.contents book.old))
        (outside (P.given ports.new) (K.contents log.new) (B.contents book.new)) result }
    ensures fits { IsRestStatus result }
    ensures causes { HasRestCauses result (P.faults ports.old) (P.faults ports.new)
        (K.faults log.old) (K.faults log.new) (B.faults book.old) (B.faults book.new) }
{
    let bytes = match read_book(alloc, book) {
        Ok(bytes) => bytes,
        Err(BookError::Fault) => return BookStatus::BookFault,
        Err(BookError::Full) => return BookStatus::BookFull,
        Err(BookError::Memory) => return BookStatus::Node(NodeStatus::Memory),
    };
    let Ok(profile) = profile_of(alloc, &settings) else {
        return BookStatus::Node(NodeStatus::Memory);
    };
    let entries = bytes.as_slice();
    let count = entries.len() as u64;
    match resume(alloc, profile, entries) {
        Ok(resumed) => run_on(alloc, settings, resumed, count, ports, clock, log, book),
        Err(ResumeError::Bad { at, why }) => BookStatus::BookRefused { at, why },
        Err(ResumeError::Memory) => BookStatus::Node(NodeStatus::Memory),
    }
}

/// Cuts off what follows the whole entries of a book of so many bytes, and runs the machine on.
fn run_on<P: Ports, C: Clock, K: Sink, B: Keeper>(
    alloc: Global,
    settings: Settings,
    resumed: Resumed,
    count: u64,
    ports: &mut P,
    clock: &mut C,
    log: &mut K,
    book: &mut B,
) -> BookStatus
    requires size { resumed.whole ≤ most_book }
    requires turns { 1 ≤ settings.turns }
    ensures does { MendsAndRuns (C.moment clock.old) settings resumed.node resumed.drives count
        resumed.whole (outside (P.given ports.old) (K.contents log.old) (B.contents book.old))
        (outside (P.given ports.new) (K.contents log.new) (B.contents book.new)) result }
    ensures fits { IsRestStatus result }
    ensures causes { HasRestCauses result (P.faults ports.old) (P.faults ports.new)
        (K.faults log.old) (K.faults log.new) (B.faults book.old) (B.faults book.new) }
{
    match mend(book, count, resumed.whole) {
        Kept2::Done => status_of_run(run_booked(
            alloc,
            settings,
            resumed.node,
            resumed.drives,
            resumed.whole,
            ports,
            clock,
            log,
            book,
        )),
        Kept2::Failed => BookStatus::BookFault,
    }
}

fn status_of_run(status: BookedStatus) -> BookStatus
    ensures { result ≡ book_status status }
{
    match status {
        BookedStatus::Node(status) => BookStatus::Node(status),
        BookedStatus::BookFault => BookStatus::BookFault,
        BookedStatus::BookFull => BookStatus::BookFull,
    }
}

/// What the machine of these settings is.
fn profile_of(alloc: Global, settings: &Settings) -> Result<NodeProfile, Memory>
    ensures { IfOk result (λ profile. profile ≡ profile_of settings.now) }
{
    Ok(NodeProfile {
        number: settings.identity.number,
        lane: settings.identity.lane,
        machine: settings.identity.machine_id.copy(alloc)?,
        capacity: settings.places.capacity,
        used: settings.places.used,
        bridge: settings.bridge,
    })
}
