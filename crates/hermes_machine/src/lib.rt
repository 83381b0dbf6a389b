//! A machine of a board line as a C library: the calls of hermes_machine.h.
//!
//! A handle is none or has one machine. Each call takes the machine out, does one thing with it, and
//! puts it back. None of them asks anything of its caller but what the header says of memory: a
//! handle without a machine, a number out of its range and bytes that are no text have their answer.
#![tactic(auto)]

ghost use Rattle.std.specs.Prelude.{◌≡◌, ◌==◌, true, false, None, Some, IfSome, is_some, option_map, slice_get};
ghost use Rattle.machine_port.specs.Port.{new_port};
ghost use Rattle.machine_text.specs.Logs.{TellsOwn};
ghost use Rattle.machine_port.specs.Acts.{act_seen};
ghost use Rattle.machine_port.specs.Records.{board_seen, record_at};
ghost use Rattle.machine_port.specs.Seen.{view_of};
ghost use Rattle.hermes_machine.specs.Calls.{AnswersLine, AnswersStep, IsCopied, IsRead, IsReadOrWanting, act_answer, board_answer, sent_on, text_of_act, text_of_field, text_of_log, text_of_order, unsent_on};
ghost use Rattle.hermes_machine.specs.Supervised.{AnswersBytes, AnswersClosed, AnswersMessage, AnswersSecond};
ghost use Rattle.hermes_machine.specs.Made.{IsIdText, is_profile, profile_of};

mod answer;
mod handle;
mod happening;
mod input;
mod line;
mod loose;
mod meaning;
mod profile;
mod reading;
mod slot;
mod step;
mod supervisor;
mod ways;

pub use answer::{BAD_INPUT, BAD_TEXT, DONE, EMPTY, MEMORY, NONE, NOT_EMPTY};
pub use handle::HermesMachine;
pub use happening::Happening;
pub use input::HermesInput;
use line::tell_line;
use machine_port::{HermesAct, HermesBoard, HermesView, Port, VIEW_BYTES, view_of};
pub use meaning::Meaning;
pub use profile::HermesProfile;
use profile::{NotMade, made};
use reading::{read_act, read_act_text, read_board, read_field, read_log, read_order};
pub use slot::{Opaque, Slot};
use std::alloc::Global;
use step::tell;
use supervisor::{do_next, hear, leave, refuse_second};
use ways::{copy_unsent, take_sent};

/// The number of this library's structs, numbers and calls. A change of any raises it.
#[unsafe(no_mangle)]
pub extern "C" fn hermes_machine_abi() -> u32
    ensures { result ≡ 6 }
{
    6
}

/// Puts a new machine into an empty handle: it keeps nothing, has no connection, and is willing on
/// both sides, a bridge on none.
///
/// `NOT_EMPTY` where the handle has a machine; else `BAD_INPUT` where a number of the profile is out
/// of its range; else `BAD_TEXT` where the name is no text of 1 to 64 bytes; else done, or `MEMORY`.
/// But where it is done the handle is as it was.
#[unsafe(no_mangle)]
pub extern "C" fn hermes_machine_new(
    alloc: Global,
    m: &mut HermesMachine,
    profile: &HermesProfile,
    name: &[u8],
) -> i32
    ensures not_empty { is_some m.old.slot.held ≡ true → result ≡ NOT_EMPTY }
    ensures bad_input { is_some m.old.slot.held ≡ false → is_profile profile.now ≡ false
        → result ≡ BAD_INPUT }
    ensures bad_text { is_some m.old.slot.held ≡ false → is_profile profile.now ≡ true
        → ¬ (IsIdText name.now) → result ≡ BAD_TEXT }
    ensures memory { is_some m.old.slot.held ≡ false → is_profile profile.now ≡ true
        → IsIdText name.now → ¬ (result ≡ DONE) → result ≡ MEMORY }
    ensures made { result ≡ DONE
        → m.new.slot.held ≡ Some (new_port (profile_of profile.now name.now)) }
    ensures stays { ¬ (result ≡ DONE) → m.new.slot.held ≡ m.old.slot.held }
{
    if let Some(there) = m.take(alloc) {
        m.put(there);
        return NOT_EMPTY;
    }
    match made(alloc, profile, name) {
        Ok(machine) => {
            m.put(machine);
            DONE
        }
        Err(NotMade::BadProfile) => BAD_INPUT,
        Err(NotMade::BadText) => BAD_TEXT,
        Err(NotMade::Memory) => MEMORY,
    }
}

/// Frees the machine and empties the handle. `EMPTY` exactly where it has none.
#[unsafe(no_mangle)]
pub extern "C" fn hermes_machine_free(alloc: Global, m: &mut HermesMachine) -> i32
    ensures empty { is_some m.old.slot.held ≡ false → result ≡ EMPTY }
    ensures done { is_some m.old.slot.held ≡ true → result ≡ DONE }
    ensures behind { m.new.slot.held ≡ None }
{
    match m.take(alloc) {
        Some(machine) => {
            drop(machine);
            DONE
        }
        None => EMPTY,
    }
}

/// ONE STEP: something happened.
///
/// The first of these that holds is the answer: `EMPTY`; `BAD_INPUT` where the input says another size
/// than its own, a number of it or the moment is out of its range, or there are more than 4,096
/// bytes; `BAD_TEXT` where it wants a text and the bytes are none; the number of the reason for which
/// the machine can't take it now; else done. `MEMORY` may be the answer in place of a reason and of
/// done, and nothing else changes then, or the machine is spent. At any answer but done and
/// `MEMORY` the machine is as it was.
#[unsafe(no_mangle)]
pub extern "C" fn hermes_machine_step(
    alloc: Global,
    m: &mut HermesMachine,
    input: &HermesInput,
    bytes: &[u8],
    now_ms: i64,
) -> i32
    ensures empty { is_some m.old.slot.held ≡ false → result ≡ EMPTY }
    ensures nothing { is_some m.old.slot.held ≡ false → m.new.slot.held ≡ None }
    ensures answers { IfSome m.old.slot.held (λ s. IfSome m.new.slot.held
        (λ t. AnswersStep input.now bytes.entry now_ms s t result)) }
    ensures full { is_some m.new.slot.held ≡ is_some m.old.slot.held }
{
    let Some(mut port) = m.take(alloc) else {
        return EMPTY;
    };
    let answer = tell(alloc, &mut port, input, bytes, now_ms);
    m.put(port);
    answer
}

/// ONE STEP, BY A LINE of a panel, given without its line end.
///
/// The first of these that holds is the answer: `EMPTY`; `BAD_INPUT` where the moment is none; the
/// number of the reason for which a panel refuses the line; `NONE` where it is empty or a comment;
/// `BAD_TEXT` where it is `connect`, `show` or `end`; the number of the reason for which the machine
/// can't take it now; else done. `MEMORY` may be the answer in place of all but the first two, and
/// nothing else changes then, or the machine is spent. At any answer but done and `MEMORY` the machine
/// is as it was.
#[unsafe(no_mangle)]
pub extern "C" fn hermes_machine_line(
    alloc: Global,
    m: &mut HermesMachine,
    line: &[u8],
    now_ms: i64,
) -> i32
    ensures empty { is_some m.old.slot.held ≡ false → result ≡ EMPTY }
    ensures nothing { is_some m.old.slot.held ≡ false → m.new.slot.held ≡ None }
    ensures answers { IfSome m.old.slot.held (λ s. IfSome m.new.slot.held
        (λ t. AnswersLine line.now now_ms s t result)) }
    ensures full { is_some m.new.slot.held ≡ is_some m.old.slot.held }
{
    let Some(mut port) = m.take(alloc) else {
        return EMPTY;
    };
    let answer = tell_line(alloc, &mut port, line, now_ms);
    m.put(port);
    answer
}

/// Copies the lines of the last step's acts into `to`, from byte `from` on: as a node logs them that
/// tells its drives, with the number of the step in front. It answers how many bytes. `EMPTY` where the
/// handle has no machine; `MEMORY` where there is none for the text, and `to` is as it was then.
#[unsafe(no_mangle)]
pub extern "C" fn hermes_machine_log(
    alloc: Global,
    m: &mut HermesMachine,
    from: usize,
    to: &mut [u8],
) -> i64
    ensures read { IsReadOrWanting (text_of_log from m.old.slot.held) to.old to.new result }
    // what is read off them is what the acts do to what the machine owned, whatever follows
    ensures owns { IfSome m.old.slot.held (λ s. TellsOwn s) }
    ensures stays { m.new.slot.held ≡ m.old.slot.held }
{
    let Some(port) = m.take(alloc) else {
        return -1;
    };
    let answer = read_log(alloc, &port, from, to);
    m.put(port);
    answer
}

/// Bytes came on the connection of the supervisor: they wait, and are done message by message. Where that
/// connection is to be closed they are dropped.
///
/// The first of these that holds is the answer: `EMPTY`; `BAD_INPUT` where there are more than 4,096
/// bytes, or what came before isn't all done yet; else done, or `MEMORY`, and the machine is spent.
#[unsafe(no_mangle)]
pub extern "C" fn hermes_machine_supervisor_bytes(
    alloc: Global,
    m: &mut HermesMachine,
    bytes: &[u8],
) -> i32
    ensures empty { is_some m.old.slot.held ≡ false → result ≡ EMPTY }
    ensures nothing { is_some m.old.slot.held ≡ false → m.new.slot.held ≡ None }
    ensures answers { IfSome m.old.slot.held (λ s. IfSome m.new.slot.held
        (λ t. AnswersBytes bytes.now s t result)) }
    ensures full { is_some m.new.slot.held ≡ is_some m.old.slot.held }
{
    let Some(mut port) = m.take(alloc) else {
        return EMPTY;
    };
    let answer = hear(&mut port, bytes);
    m.put(port);
    answer
}

/// Does the next of the supervisor's messages, of the bytes that came: the machine answers it, makes a
/// step, or neither, or breaks off. Where it makes no step there are no last acts.
///
/// The first of these that holds is the answer: `EMPTY`; `BAD_INPUT` where the moment is none; `NONE`
/// where all bytes that came are done; else done, or `MEMORY`, and the machine is spent.
#[unsafe(no_mangle)]
pub extern "C" fn hermes_machine_supervisor_message(
    alloc: Global,
    m: &mut HermesMachine,
    now_ms: i64,
) -> i32
    ensures empty { is_some m.old.slot.held ≡ false → result ≡ EMPTY }
    ensures nothing { is_some m.old.slot.held ≡ false → m.new.slot.held ≡ None }
    ensures answers { IfSome m.old.slot.held (λ s. IfSome m.new.slot.held
        (λ t. AnswersMessage now_ms s t result)) }
    ensures full { is_some m.new.slot.held ≡ is_some m.old.slot.held }
{
    let Some(mut port) = m.take(alloc) else {
        return EMPTY;
    };
    let answer = do_next(&mut port, now_ms);
    m.put(port);
    answer
}

/// The connection of the supervisor is closed, by whomever: what waits there and what came is dropped, and
/// a machine that was supervised makes a step and is so no more; else there are no last acts.
///
/// The first of these that holds is the answer: `EMPTY`; `BAD_INPUT` where the moment is none; else done,
/// or `MEMORY`, and the machine is spent.
#[unsafe(no_mangle)]
pub extern "C" fn hermes_machine_supervisor_closed(
    alloc: Global,
    m: &mut HermesMachine,
    now_ms: i64,
) -> i32
    ensures empty { is_some m.old.slot.held ≡ false → result ≡ EMPTY }
    ensures nothing { is_some m.old.slot.held ≡ false → m.new.slot.held ≡ None }
    ensures answers { IfSome m.old.slot.held (λ s. IfSome m.new.slot.held
        (λ t. AnswersClosed now_ms s t result)) }
    ensures full { is_some m.new.slot.held ≡ is_some m.old.slot.held }
{
    let Some(mut port) = m.take(alloc) else {
        return EMPTY;
    };
    let answer = leave(&mut port, now_ms);
    m.put(port);
    answer
}

/// A second connection of a supervisor was accepted: the text that waits on the way of refusals is for
/// it, and it is to be closed behind that.
///
/// The first of these that holds is the answer: `EMPTY`; `BAD_INPUT` where the moment is none; else done,
/// or `MEMORY`. But where it is done the machine is as it was.
#[unsafe(no_mangle)]
pub extern "C" fn hermes_machine_supervisor_second(
    alloc: Global,
    m: &mut HermesMachine,
    now_ms: i64,
) -> i32
    ensures empty { is_some m.old.slot.held ≡ false → result ≡ EMPTY }
    ensures nothing { is_some m.old.slot.held ≡ false → m.new.slot.held ≡ None }
    ensures answers { IfSome m.old.slot.held (λ s. IfSome m.new.slot.held
        (λ t. AnswersSecond now_ms s t result)) }
    ensures full { is_some m.new.slot.held ≡ is_some m.old.slot.held }
{
    let Some(mut port) = m.take(alloc) else {
        return EMPTY;
    };
    let answer = refuse_second(&mut port, now_ms);
    m.put(port);
    answer
}

/// Copies the front of the text that waits on a way into `to`: as many bytes as there is room for,
/// or as wait. It answers how many. `EMPTY`, or else `BAD_INPUT` where the number is no way's.
#[unsafe(no_mangle)]
pub extern "C" fn hermes_machine_unsent(
    alloc: Global,
    m: &mut HermesMachine,
    way: u32,
    to: &mut [u8],
) -> i64
    ensures empty { is_some m.old.slot.held ≡ false → result ≡ EMPTY }
    ensures bad_input { IfSome m.old.slot.held (λ s. is_some (unsent_on way s) ≡ false
        → result ≡ BAD_INPUT) }
    ensures copied { IfSome m.old.slot.held (λ s. IfSome (unsent_on way s)
        (λ text. IsCopied text to.old to.new result)) }
    ensures nowhere { is_some m.old.slot.held ≡ false → to.new ≡ to.old }
    ensures uncopied { IfSome m.old.slot.held (λ s. is_some (unsent_on way s) ≡ false
        → to.new ≡ to.old) }
    ensures stays { m.new.slot.held ≡ m.old.slot.held }
{
    let Some(port) = m.take(alloc) else {
        return -1;
    };
    let answer = copy_unsent(&port, way, to);
    m.put(port);
    answer
}

/// So many bytes from the front of a way's text were sent, all where there are fewer: they wait no
/// more. `EMPTY`, or else `BAD_INPUT` where the number is no way's.
#[unsafe(no_mangle)]
pub extern "C" fn hermes_machine_sent(
    alloc: Global,
    m: &mut HermesMachine,
    way: u32,
    count: usize,
) -> i32
    ensures empty { is_some m.old.slot.held ≡ false → result ≡ EMPTY }
    ensures bad_input { IfSome m.old.slot.held (λ s. is_some (unsent_on way s) ≡ false
        → result ≡ BAD_INPUT) }
    ensures done { IfSome m.old.slot.held (λ s. is_some (unsent_on way s) ≡ true
        → result ≡ DONE) }
    ensures sent { m.new.slot.held ≡ option_map (sent_on way count) m.old.slot.held }
{
    let Some(mut port) = m.take(alloc) else {
        return EMPTY;
    };
    let answer = take_sent(&mut port, way, count);
    m.put(port);
    answer
}

/// How the machine stands. `EMPTY` where the handle has none; else `BAD_INPUT` where the view says
/// another size than its own; else done. But where it is done the view is as it was.
#[unsafe(no_mangle)]
pub extern "C" fn hermes_machine_view(
    alloc: Global,
    m: &mut HermesMachine,
    view: &mut HermesView,
) -> i32
    ensures empty { is_some m.old.slot.held ≡ false → result ≡ EMPTY }
    ensures bad_input { is_some m.old.slot.held ≡ true → (view.old.size == VIEW_BYTES) ≡ false
        → result ≡ BAD_INPUT }
    ensures done { is_some m.old.slot.held ≡ true → (view.old.size == VIEW_BYTES) ≡ true
        → result ≡ DONE }
    ensures seen { result ≡ DONE → IfSome m.old.slot.held (λ s. view.new ≡ view_of s) }
    ensures unseen { ¬ (result ≡ DONE) → view.new ≡ view.old }
    // the ids that it counts are those that the machine made
    ensures ids { IfSome m.old.slot.held (λ s. s.spent ≡ false → s.made ≡ s.node.maker.used) }
    ensures stays { m.new.slot.held ≡ m.old.slot.held }
{
    let Some(seen) = m.take(alloc) else {
        return EMPTY;
    };
    let answer = see(&seen, view);
    m.put(seen);
    answer
}

/// How an act of the last step is seen, by its place, from 0. `EMPTY` where the handle has no machine;
/// else `BAD_INPUT` where the act says another size than its own; else `NONE` where there is no such
/// act; else done. But where it is done `act` is as it was.
#[unsafe(no_mangle)]
pub extern "C" fn hermes_machine_act(
    alloc: Global,
    m: &mut HermesMachine,
    index: u32,
    act: &mut HermesAct,
) -> i32
    ensures answer { result ≡ act_answer act.old.size index m.old.slot.held }
    ensures seen { result ≡ DONE → IfSome m.old.slot.held (λ s. IfSome (slice_get s.last index)
        (λ told. act.new ≡ act_seen told)) }
    ensures unseen { ¬ (result ≡ DONE) → act.new ≡ act.old }
    ensures stays { m.new.slot.held ≡ m.old.slot.held }
{
    let Some(port) = m.take(alloc) else {
        return EMPTY;
    };
    let answer = read_act(&port, index, act);
    m.put(port);
    answer
}

/// Copies the text of an act of the last step into `to`, from byte `from` on: its line in the log of
/// a machine, without the turn. It answers how many bytes. `EMPTY` where the handle has no machine;
/// else `NONE` where there is no such act; `MEMORY` where there is none for the text. `to` is as it
/// was then.
#[unsafe(no_mangle)]
pub extern "C" fn hermes_machine_act_text(
    alloc: Global,
    m: &mut HermesMachine,
    index: u32,
    from: usize,
    to: &mut [u8],
) -> i64
    ensures read { IsReadOrWanting (text_of_act index from m.old.slot.held)
        to.old to.new result }
    ensures stays { m.new.slot.held ≡ m.old.slot.held }
{
    let Some(port) = m.take(alloc) else {
        return -1;
    };
    let answer = read_act_text(alloc, &port, index, from, to);
    m.put(port);
    answer
}

/// How a record is seen: of place 0 the kept ones, from 0 at the front, of 1 that of the outlet, of
/// 2 that of the intake, each of index 0. `EMPTY` where the handle has no machine; else `BAD_INPUT`
/// where the board says another size than its own, or there is no such place; else `NONE` where there
/// is no such record; else done. But where it is done `board` is as it was.
#[unsafe(no_mangle)]
pub extern "C" fn hermes_machine_board(
    alloc: Global,
    m: &mut HermesMachine,
    place: u32,
    index: u32,
    board: &mut HermesBoard,
) -> i32
    ensures answer { result ≡ board_answer board.old.size place index m.old.slot.held }
    ensures seen { result ≡ DONE → IfSome m.old.slot.held
        (λ s. IfSome (record_at place index s.node) (λ r. board.new ≡ board_seen r)) }
    ensures unseen { ¬ (result ≡ DONE) → board.new ≡ board.old }
    ensures stays { m.new.slot.held ≡ m.old.slot.held }
{
    let Some(port) = m.take(alloc) else {
        return EMPTY;
    };
    let answer = read_board(&port, place, index, board);
    m.put(port);
    answer
}

/// Copies the text of a record's field into `to`, and answers how many bytes. `EMPTY` where the
/// handle has no machine; else `BAD_INPUT` where there is no such place or field; else `NONE` where
/// there is no such record, or it hasn't that field; `MEMORY` where there is none for the text. `to`
/// is as it was then.
#[unsafe(no_mangle)]
pub extern "C" fn hermes_machine_field(
    alloc: Global,
    m: &mut HermesMachine,
    place: u32,
    index: u32,
    field: u32,
    to: &mut [u8],
) -> i64
    ensures read { IsReadOrWanting (text_of_field place index field m.old.slot.held)
        to.old to.new result }
    ensures stays { m.new.slot.held ≡ m.old.slot.held }
{
    let Some(port) = m.take(alloc) else {
        return -1;
    };
    let answer = read_field(alloc, &port, place, index, field, to);
    m.put(port);
    answer
}

/// Copies the work order that the question of this number was answered with into `to`, and answers
/// how many bytes. `EMPTY`, or else `NONE` where that question wasn't asked or not answered.
#[unsafe(no_mangle)]
pub extern "C" fn hermes_machine_order(
    alloc: Global,
    m: &mut HermesMachine,
    query: u64,
    to: &mut [u8],
) -> i64
    ensures read { IsRead (text_of_order query m.old.slot.held) to.old to.new result }
    ensures stays { m.new.slot.held ≡ m.old.slot.held }
{
    let Some(port) = m.take(alloc) else {
        return -1;
    };
    let answer = read_order(&port, query, to);
    m.put(port);
    answer
}

/// Writes how a machine stands, where the view has its size.
fn see(machine: &Port, view: &mut HermesView) -> i32
    ensures bad_input { (view.old.size == VIEW_BYTES) ≡ false → result ≡ BAD_INPUT }
    ensures done { (view.old.size == VIEW_BYTES) ≡ true → result ≡ DONE }
    ensures seen { result ≡ DONE → view.new ≡ view_of machine.now }
    ensures unseen { ¬ (result ≡ DONE) → view.new ≡ view.old }
    ensures ids { machine.now.spent ≡ false → machine.now.made ≡ machine.now.node.maker.used }
{
    let _ids_made = machine.ids_made();
    if view.size != VIEW_BYTES {
        return BAD_INPUT;
    }
    *view = view_of(machine);
    DONE
}
