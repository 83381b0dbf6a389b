//! The report's text of what happened. Where memory is wanting, the calls that are given out leave
//! what stood there; behind it those in here may leave a part of the text.

ghost use Rattle.std.specs.Prelude.{◌≡◌, ◌++◌, OnErr, OnOk, codes};
ghost use Rattle.hermes_element.specs.Standing.{StillStands};
ghost use Rattle.hermes_vertical.specs.Parts.{name_of};
ghost use Rattle.node_core.specs.declared.act.Act.TheVariants as acts;
ghost use Rattle.line_report.specs.declared.happening.Happening.TheVariants as happenings;
ghost use Rattle.line_report.specs.Texts.{act_on, act_text, between_on, board_on, deed_on, entry, entry_on, happening_on, mark_of, numbered, passed_text, place_text, placed, reason_text, setting_on, side_on, switched_on, told_text, what_text};

use crate::bytes::{
    append, append_digits, append_id, append_in_line, append_line_end, append_number, append_place,
    append_space, append_word,
};
use crate::happening::{Happening, Reason, no_text};
use crate::place::{Place, place_on};
use crate::words::{
    event_word, line_word, passing_word, ping_mark, quality_word, side_word, signal_word,
    switch_word, transfer_mark, will_word,
};
use board_record::BoardId;
use hermes_horizontal::Horizontal;
use hermes_vertical::{Passage, Vertical};
use line_base::{Memory, Side};
use node_core::{Act, Deed, Setting};

/// Appends one line of the report: the number of the script line, what happened on lane 1, and the
/// line's end. `Memory` where there is no room for it: the text is as it was then.
pub fn write_happening(number: u64, what: &Happening, to: &mut Vec<u8>) -> Result<(), Memory>
    ensures kept { StillStands to.old.items to.new.items }
    ensures written { OnOk result (to.new.items ≡ to.old.items ++ entry number what.now) }
    ensures unchanged { OnErr result (to.new.items ≡ to.old.items) }
{
    write_on(number, 1, what, to)
}

/// Appends one line of the report: the number of the script line, what happened on a lane, and the
/// line's end. What is of all lanes is told of lane 1. `Memory` where there is no room for it: the
/// text is as it was then.
pub fn write_on(number: u64, lane: u32, what: &Happening, to: &mut Vec<u8>) -> Result<(), Memory>
    ensures kept { StillStands to.old.items to.new.items }
    ensures written { OnOk result
        (to.new.items ≡ to.old.items ++ entry_on number (record { lane = lane; what = what.now })) }
    ensures unchanged { OnErr result (to.new.items ≡ to.old.items) }
{
    let before = to.len();
    match append_happening(number, lane, what, to) {
        Ok(()) => Ok(()),
        Err(Memory) => {
            to.truncate(before);
            Err(Memory)
        }
    }
}

pub(crate) fn append_happening(
    number: u64,
    lane: u32,
    what: &Happening,
    to: &mut Vec<u8>,
) -> Result<(), Memory>
    ensures kept { StillStands to.old.items to.new.items }
    ensures written { OnOk result
        (to.new.items ≡ to.old.items ++ entry_on number (record { lane = lane; what = what.now })) }
{
    append_digits(number, to)?;
    append_space(to)?;
    write_what(lane, what, to)?;
    append_line_end(to)
}

fn write_what(lane: u32, what: &Happening, to: &mut Vec<u8>) -> Result<(), Memory>
    ensures kept { StillStands to.old.items to.new.items }
    ensures written { OnOk result (to.new.items ≡ to.old.items ++ happening_on lane what.now) }
{
    match what {
        Happening::Lanes { count } => write_numbered("lanes", *count, to),
        Happening::Machine { number, capacity } => write_added("machine", *number, *capacity, to),
        Happening::Bridge { number, capacity } => write_added("bridge", *number, *capacity, to),
        Happening::Done { machine, act } => append_act(place_on(lane, *machine), act, to),
        Happening::Cut { gap } => write_placed("cut", place_on(lane, *gap), to),
        Happening::Stop { machine } => write_numbered("stop", *machine, to),
        Happening::Spoils { machine, side } => write_side(
            "spoils",
            place_on(lane, *machine),
            *side,
            to,
        ),
        Happening::Moved { gap, step } => {
            write_placed("move", place_on(lane, *gap), to)?;
            append_word(step.word(), to)
        }
        Happening::Lie { machine, sensed } => {
            write_side("lie", place_on(lane, *machine), sensed.side, to)?;
            append_word(event_word(sensed.event), to)
        }
        Happening::Unseen { machine, side } => write_unseen(place_on(lane, *machine), *side, to),
        Happening::Unvouched => append(b"unvouched", to),
        Happening::No(reason) => {
            append(b"no: ", to)?;
            append_reason(reason, to)
        }
        Happening::Shown {
            machine,
            id,
            quality,
        } => {
            write_board("show", place_on(lane, *machine), *id, to)?;
            append_word(quality_word(*quality), to)
        }
        Happening::ShownBetween { gap, id } => write_between(place_on(lane, *gap), *id, to),
        Happening::With { machine, id } => write_board("with", place_on(lane, *machine), *id, to),
        Happening::Between { gap, id } => write_board("between", place_on(lane, *gap), *id, to),
        Happening::Gone { id } => {
            append(b"gone", to)?;
            append_id(*id, to)
        }
    }
}

/// Appends a reason in words. `Memory` where there is no room for them: the text is as it was then.
pub fn write_reason(reason: &Reason, to: &mut Vec<u8>) -> Result<(), Memory>
    ensures kept { StillStands to.old.items to.new.items }
    ensures written { OnOk result (to.new.items ≡ to.old.items ++ reason_text reason.now) }
    ensures unchanged { OnErr result (to.new.items ≡ to.old.items) }
{
    let before = to.len();
    match append_reason(reason, to) {
        Ok(()) => Ok(()),
        Err(Memory) => {
            to.truncate(before);
            Err(Memory)
        }
    }
}

fn append_reason(reason: &Reason, to: &mut Vec<u8>) -> Result<(), Memory>
    ensures kept { StillStands to.old.items to.new.items }
    ensures written { OnOk result (to.new.items ≡ to.old.items ++ reason_text reason.now) }
{
    match reason {
        Reason::Node(no) => append(no_text(*no).as_bytes(), to),
        Reason::Move(no) => append(no.text().as_bytes(), to),
        Reason::NoSuchMachine => append(b"no such machine", to),
        Reason::LineFull => append(b"line full", to),
        Reason::NoLane => append(b"no lane", to),
        Reason::MachinesStand => append(b"machines stand", to),
        Reason::NotHere => append(b"not here", to),
        Reason::NoNeighbour => append(b"no neighbour", to),
        Reason::NothingInFlight => append(b"nothing in flight", to),
        Reason::NothingToRead => append(b"nothing to read", to),
        Reason::Standing => append(b"standing", to),
        Reason::TextInFlight => append(b"text in flight", to),
        Reason::Answered(word) => {
            append(b"answered ", to)?;
            append_in_line(word.bytes(), to)
        }
    }
}

/// A machine or a bridge that was added, and for how many boards it has room.
fn write_added(word: &str, number: u32, capacity: u32, to: &mut Vec<u8>) -> Result<(), Memory>
    ensures kept { StillStands to.old.items to.new.items }
    ensures written { OnOk result
        (to.new.items ≡ to.old.items ++ numbered (numbered word.now number) capacity) }
{
    write_numbered(word, number, to)?;
    append_number(u64::from(capacity), to)
}

/// The side comes before the machine: `unseen in 2`.
fn write_unseen(at: Place, side: Side, to: &mut Vec<u8>) -> Result<(), Memory>
    ensures kept { StillStands to.old.items to.new.items }
    ensures written { OnOk result
        (to.new.items ≡ to.old.items ++ happening_on at.lane (happenings.Unseen at.number side)) }
{
    append(b"unseen", to)?;
    append_word(side_word(side), to)?;
    write_place(at, to)
}

/// The board that is between two machines.
fn write_between(at: Place, id: BoardId, to: &mut Vec<u8>) -> Result<(), Memory>
    ensures kept { StillStands to.old.items to.new.items }
    ensures written { OnOk result
        (to.new.items ≡ to.old.items ++ happening_on at.lane (happenings.ShownBetween at.number id)) }
{
    append(b"show ", to)?;
    write_gap(at, to)?;
    append_id(id, to)
}

/// The gap between two neighbours, by their places.
fn write_gap(at: Place, to: &mut Vec<u8>) -> Result<(), Memory>
    ensures kept { StillStands to.old.items to.new.items }
    ensures written { OnOk result (to.new.items ≡ to.old.items ++ between_on at.lane at.number) }
{
    append_place(at.lane, u64::from(at.number), to)?;
    append(b"-", to)?;
    append_place(at.lane, u64::from(at.number) + 1, to)
}

/// A word and a number.
#[inline(always)]
fn write_numbered(word: &str, number: u32, to: &mut Vec<u8>) -> Result<(), Memory>
    ensures kept { StillStands to.old.items to.new.items }
    ensures written { OnOk result (to.new.items ≡ to.old.items ++ numbered word.now number) }
{
    append(word.as_bytes(), to)?;
    append_number(u64::from(number), to)
}

/// A word and a place.
#[inline(always)]
fn write_placed(word: &str, at: Place, to: &mut Vec<u8>) -> Result<(), Memory>
    ensures kept { StillStands to.old.items to.new.items }
    ensures written { OnOk result (to.new.items ≡ to.old.items ++ placed word.now at.lane at.number) }
{
    append(word.as_bytes(), to)?;
    write_place(at, to)
}

/// A space and a place.
#[inline(always)]
fn write_place(at: Place, to: &mut Vec<u8>) -> Result<(), Memory>
    ensures kept { StillStands to.old.items to.new.items }
    ensures written { OnOk result
        (to.new.items ≡ to.old.items ++ (codes " " ++ place_text at.lane at.number)) }
{
    append_space(to)?;
    append_place(at.lane, u64::from(at.number), to)
}

/// A word, a machine's place and a side.
fn write_side(word: &str, at: Place, side: Side, to: &mut Vec<u8>) -> Result<(), Memory>
    ensures kept { StillStands to.old.items to.new.items }
    ensures written { OnOk result (to.new.items ≡ to.old.items ++ side_on word.now at.lane at.number side) }
{
    write_placed(word, at, to)?;
    append_word(side_word(side), to)
}

/// A word, a place and a board's id.
fn write_board(word: &str, at: Place, id: BoardId, to: &mut Vec<u8>) -> Result<(), Memory>
    ensures kept { StillStands to.old.items to.new.items }
    ensures written { OnOk result (to.new.items ≡ to.old.items ++ board_on word.now at.lane at.number id) }
{
    write_placed(word, at, to)?;
    append_id(id, to)
}

/// Appends what a report tells of one act of a machine, and nothing for a drive.
///
/// `machine` is the machine's number in the line, and its lane is the first; a node tells itself by
/// its own number. `Memory` where there is no room for it: the text is as it was then.
pub fn write_act(machine: u32, act: &Act, to: &mut Vec<u8>) -> Result<(), Memory>
    ensures kept { StillStands to.old.items to.new.items }
    ensures written { OnOk result (to.new.items ≡ to.old.items ++ act_text machine act.now) }
    ensures unchanged { OnErr result (to.new.items ≡ to.old.items) }
{
    let before = to.len();
    match append_act(place_on(1, machine), act, to) {
        Ok(()) => Ok(()),
        Err(Memory) => {
            to.truncate(before);
            Err(Memory)
        }
    }
}

fn append_act(at: Place, act: &Act, to: &mut Vec<u8>) -> Result<(), Memory>
    ensures kept { StillStands to.old.items to.new.items }
    ensures written { OnOk result (to.new.items ≡ to.old.items ++ act_on at.lane at.number act.now) }
{
    match act {
        Act::Reads(side, event) => {
            write_side("reads", at, *side, to)?;
            append_word(event_word(*event), to)
        }
        Act::Hears(side, message) => {
            write_side("hears", at, *side, to)?;
            write_message(message.body.what(), to)
        }
        Act::Breaches(side, text) => write_breach(at, *side, text.bytes(), to),
        Act::Sends(side, message) => {
            write_side("sends", at, *side, to)?;
            write_message(message.body.what(), to)
        }
        Act::Closes(side) => write_side("closes", at, *side, to),
        Act::Notices(side) => write_side("notices", at, *side, to),
        Act::Connects => write_placed("connects", at, to),
        Act::Deed(deed) => write_deed(at, *deed, to),
        Act::Drive(_, _) => Ok(()),
        Act::Signals(signal, switch) => {
            write_switched("signals", at, signal_word(*signal), *switch, to)
        }
        Act::Marks(id, quality) => {
            write_board("mark", at, *id, to)?;
            append_word(quality_word(*quality), to)
        }
        Act::Subs { id, pos } => {
            write_board("sub", at, *id, to)?;
            append_number(u64::from(*pos), to)
        }
        Act::Inserts(id) => write_board("insert", at, *id, to),
        Act::Removes(id) => write_board("remove", at, *id, to),
        Act::Replaces(old, new) => {
            write_board("replace", at, *old, to)?;
            append_id(*new, to)
        }
        Act::Tells(told) => write_told(at.number, &told.message().body, to),
        Act::Answered(query, order) => write_answered(at, *query, order.bytes(), to),
        Act::Sets(setting) => write_setting(at, *setting, to),
        Act::Gives { id, to: lane } => write_shift(at, *lane, *id, to),
        Act::Gets { .. } => Ok(()),
    }
}

/// A board goes from a place to another lane of its machine.
fn write_shift(at: Place, lane: u32, id: BoardId, to: &mut Vec<u8>) -> Result<(), Memory>
    ensures kept { StillStands to.old.items to.new.items }
    ensures written { OnOk result
        (to.new.items ≡ to.old.items ++ act_on at.lane at.number (acts.Gives id lane)) }
{
    write_placed("shift", at, to)?;
    append_space(to)?;
    append_place(lane, u64::from(at.number), to)?;
    append_id(id, to)
}

/// What a supervisor is told of a board, or asked.
fn write_told(machine: u32, body: &Vertical, to: &mut Vec<u8>) -> Result<(), Memory>
    ensures kept { StillStands to.old.items to.new.items }
    ensures written { OnOk result (to.new.items ≡ to.old.items ++ told_text machine body.now) }
{
    match body {
        Vertical::BoardArrived(passage) => write_passed(machine, "arrived", passage, to),
        Vertical::BoardDeparted(passage) => write_passed(machine, "departed", passage, to),
        Vertical::QueryWorkOrderInfo { query, .. } => write_query("asks", machine, *query, to),
        _ => write_named(machine, body, to),
    }
}

/// A message to a supervisor, by its name.
fn write_named(machine: u32, body: &Vertical, to: &mut Vec<u8>) -> Result<(), Memory>
    ensures kept { StillStands to.old.items to.new.items }
    ensures written { OnOk result (to.new.items ≡ to.old.items ++ (numbered (codes "tells") machine ++ codes " " ++ name_of body.now)) }
{
    write_numbered("tells", machine, to)?;
    append_space(to)?;
    append(body.name(), to)
}

/// A board came or went, which one, and how.
fn write_passed(machine: u32, word: &str, passage: &Passage, to: &mut Vec<u8>) -> Result<(), Memory>
    ensures kept { StillStands to.old.items to.new.items }
    ensures written { OnOk result (to.new.items ≡ to.old.items ++ passed_text machine word.now passage.now) }
{
    write_numbered("tells", machine, to)?;
    append_word(word, to)?;
    append_id(passage.id, to)?;
    append_word(passing_word(passage.how), to)
}

/// A word, a machine's number, and that of a question.
fn write_query(word: &str, machine: u32, query: u64, to: &mut Vec<u8>) -> Result<(), Memory>
    ensures kept { StillStands to.old.items to.new.items }
    ensures written { OnOk result (to.new.items ≡ to.old.items ++ numbered (numbered word.now machine) query) }
{
    write_numbered(word, machine, to)?;
    append_number(query, to)
}

/// A question's number, and the work order that answers it. Its machine is told without a lane.
fn write_answered(at: Place, query: u64, order: &[u8], to: &mut Vec<u8>) -> Result<(), Memory>
    ensures kept { StillStands to.old.items to.new.items }
    ensures written { OnOk result
        (to.new.items ≡ to.old.items ++ act_on at.lane at.number (acts.Answered query order.now)) }
{
    write_query("answered", at.number, query, to)?;
    append_space(to)?;
    append_in_line(order, to)
}

/// What is wrong with what came on a side.
fn write_breach(at: Place, side: Side, text: &[u8], to: &mut Vec<u8>) -> Result<(), Memory>
    ensures kept { StillStands to.old.items to.new.items }
    ensures written { OnOk result
        (to.new.items ≡ to.old.items ++ act_on at.lane at.number (acts.Breaches side text.now)) }
{
    write_side("breach", at, side, to)?;
    append_space(to)?;
    append_in_line(text, to)
}

fn write_setting(at: Place, setting: Setting, to: &mut Vec<u8>) -> Result<(), Memory>
    ensures kept { StillStands to.old.items to.new.items }
    ensures written { OnOk result (to.new.items ≡ to.old.items ++ setting_on at.lane at.number setting) }
{
    match setting {
        Setting::Will(side, on) => write_side(will_word(on), at, side, to),
        Setting::Level(line, on) => write_switched("level", at, line_word(line), on, to),
        Setting::Supervise(on) => {
            write_numbered("supervise", at.number, to)?;
            append_word(switch_word(on), to)
        }
    }
}

/// A word, a machine's place, a signal, and whether it is on.
fn write_switched(
    word: &str,
    at: Place,
    signal: &str,
    on: bool,
    to: &mut Vec<u8>,
) -> Result<(), Memory>
    ensures kept { StillStands to.old.items to.new.items }
    ensures written { OnOk result
        (to.new.items ≡ to.old.items ++ switched_on word.now at.lane at.number signal.now on) }
{
    write_placed(word, at, to)?;
    append_word(signal, to)?;
    append_word(switch_word(on), to)
}

fn write_deed(at: Place, deed: Deed, to: &mut Vec<u8>) -> Result<(), Memory>
    ensures kept { StillStands to.old.items to.new.items }
    ensures written { OnOk result (to.new.items ≡ to.old.items ++ deed_on at.lane at.number deed) }
{
    let before = place_on(at.lane, at.number.saturating_sub(1));
    match deed {
        Deed::Opens(id) => write_board("opens", at, id, to),
        Deed::Refuses(id) => write_board("refuses", at, id, to),
        Deed::Leaves(id) => write_board("leaves", at, id, to),
        Deed::Returns(id) => write_board("returns", at, id, to),
        Deed::Loses(id) => write_board("loses", at, id, to),
        Deed::Starts(id) => write_board("starts", before, id, to),
        Deed::Settles(id) => write_board("settles", before, id, to),
        Deed::Drops(id) => write_board("drops", before, id, to),
    }
}

/// A space, a message's name, and what tells it from others of its name.
fn write_message(body: &Horizontal, to: &mut Vec<u8>) -> Result<(), Memory>
    ensures kept { StillStands to.old.items to.new.items }
    ensures written { OnOk result (to.new.items ≡ to.old.items ++ (codes " " ++ what_text body.now)) }
{
    append_space(to)?;
    append(body.name(), to)?;
    write_mark(body, to)
}

fn write_mark(body: &Horizontal, to: &mut Vec<u8>) -> Result<(), Memory>
    ensures kept { StillStands to.old.items to.new.items }
    ensures written { OnOk result (to.new.items ≡ to.old.items ++ mark_of body.now) }
{
    match body {
        Horizontal::CheckAlive { ping, .. } => append(ping_mark(*ping).as_bytes(), to),
        Horizontal::Notification { code, .. } => append_number(u64::from(code.number), to),
        Horizontal::StopTransport { state, .. } => append(transfer_mark(*state).as_bytes(), to),
        Horizontal::TransportFinished { state, .. } => {
            append(transfer_mark(*state).as_bytes(), to)
        }
        Horizontal::SendBoardInfo(info) => match info.id {
            None => append(b" none", to),
            Some(id) => append_id(id, to),
        },
        _ => Ok(()),
    }
}
