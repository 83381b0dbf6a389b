//! One reader for each form of line.

ghost use Rattle.std.specs.Prelude.{◌≡◌, ◌≤◌, ℕ, IfOk, [], ◌∷◌, map};
ghost use Rattle.line_script.specs.Ranges.{IsBetween, IsLaneWithin};
ghost use Rattle.line_script.specs.Words.{Reads};
ghost use Rattle.line_script.specs.Grammar.{number, numeral, place_number, placed, board, identity, sided, side_word, machine_place, room_words, made_room, is_seen_at, lie_of, mapped_ok, then_ok, values_as, arguments_as, line_as, machine_form, bridge_form, insert_form, query_form, ask_form, answer_form, sub_form, remove_form, replace_form, mark_form, hold_form, go_form, signal_form, connect_form, flow_form, notice_form, cut_form, spoil_form, forecast_form, supervise_form, shutdown_form, stop_form, tick_form, fault_form, lie_form, unseen_form, sense_form, begin_form, left_form, enter_form, back_form, hand_in_form, take_form, lanes_form, shift_form, show_form};
ghost use Rattle.line_script.specs.declared.line.LaneLine.TheVariants as lane_lines;
ghost use Rattle.line_script.specs.declared.line.ScriptLine.{ScriptLine as Line};

use crate::line::{LaneLine, LineError, LineWhy, ScriptLine};
use crate::words::{
    MOST_LANES, Place, asked_by, barcode, event, identity, literal, number, place_word, quality,
    question, segment_line, side, switch, token,
};
use board_record::{BoardId, Sensed};
use hermes_vertical::Question;
use line_base::{SensorEvent, Side};
use std::alloc::Global;

/// The most machines of a line.
const MOST_MACHINES: u64 = 64;

/// The most gaps between them.
const MOST_GAPS: u64 = 63;

/// The most boards that a machine may have room for.
const MOST_CAPACITY: u64 = 1024;

/// The most bytes that a flow of some bytes delivers.
const MOST_FLOW: u64 = 65_536;

/// The last slot of a magazine, of nine digits.
const MOST_SLOT: u64 = 999_999_999;

/// The last place of a circuit on a panel, of nine digits.
const MOST_POS: u64 = 999_999_999;

/// The last number that 15 digits spell.
const MOST_QUERY: u64 = 999_999_999_999_999;

/// The most ids that a machine may have made.
const MOST_USED: u64 = 281_474_976_710_655;

/// The same answer, as one that memory may have no room for.
pub fn refused(line: Result<LaneLine, LineWhy>) -> Result<LaneLine, LineError>
    ensures answer { Reads line result }
    ensures within { IfOk line IsLaneWithin → IfOk result IsLaneWithin }
{
    match line {
        Ok(line) => Ok(line),
        Err(why) => Err(LineError::Refused(why)),
    }
}

/// A line of this lane.
fn on_lane(lane: u32, line: ScriptLine) -> LaneLine
    ensures { result ≡ lane_lines.On lane line }
{
    LaneLine::On { lane, line }
}

/// How many boards a machine has room for, and how many ids it has made.
#[derive(Clone, Copy)]
struct Room {
    capacity: u32,
    used: u64,
}

/// The room that `c [used u]` says.
fn room_of(words: &[&[u8]]) -> Result<Room, LineWhy>
    ensures answer { (line : ℕ → ℕ → Line)
        → mapped_ok (λ room. lane_lines.On 1 (line room.capacity room.used)) result
        ≡ then_ok (arguments_as (1 ∷ 3 ∷ []) room_words (map (λ word. word.now) words.now))
        (made_room line) }
    ensures within { IfOk result (λ room. IsBetween 1 1024 room.capacity
        × IsBetween 0 281474976710655 room.used) }
{
    match words {
        [capacity] => unused_room(capacity),
        [capacity, word, used] => used_room(capacity, word, used),
        _ => Err(LineWhy::WrongCount),
    }
}

/// The room of a machine that has made no id.
fn unused_room(capacity: &[u8]) -> Result<Room, LineWhy>
    ensures answer { (line : ℕ → ℕ → Line)
        → mapped_ok (λ room. lane_lines.On 1 (line room.capacity room.used)) result
        ≡ then_ok (values_as room_words (capacity.now ∷ [])) (made_room line) }
    ensures within { IfOk result (λ room. IsBetween 1 1024 room.capacity
        × IsBetween 0 281474976710655 room.used) }
{
    let capacity = number(capacity, 1, MOST_CAPACITY)? as u32;
    Ok(Room { capacity, used: 0 })
}

fn used_room(capacity: &[u8], word: &[u8], used: &[u8]) -> Result<Room, LineWhy>
    ensures answer { (line : ℕ → ℕ → Line)
        → mapped_ok (λ room. lane_lines.On 1 (line room.capacity room.used)) result
        ≡ then_ok (values_as room_words (capacity.now ∷ word.now ∷ used.now ∷ []))
        (made_room line) }
    ensures within { IfOk result (λ room. IsBetween 1 1024 room.capacity
        × IsBetween 0 281474976710655 room.used) }
{
    let capacity = number(capacity, 1, MOST_CAPACITY)? as u32;
    literal(word, b"used")?;
    let used = number(used, 0, MOST_USED)?;
    Ok(Room { capacity, used })
}

pub fn machine(words: &[&[u8]]) -> Result<LaneLine, LineWhy>
    ensures answer { result ≡ line_as machine_form (map (λ word. word.now) words.now) }
    ensures within { IfOk result IsLaneWithin }
{
    let room = room_of(words)?;
    Ok(on_lane(
        1,
        ScriptLine::Machine {
            capacity: room.capacity,
            used: room.used,
        },
    ))
}

pub fn bridge(words: &[&[u8]]) -> Result<LaneLine, LineWhy>
    ensures answer { result ≡ line_as bridge_form (map (λ word. word.now) words.now) }
    ensures within { IfOk result IsLaneWithin }
{
    let room = room_of(words)?;
    Ok(on_lane(
        1,
        ScriptLine::Bridge {
            capacity: room.capacity,
            used: room.used,
        },
    ))
}

pub fn insert(alloc: Global, words: &[&[u8]]) -> Result<LaneLine, LineError>
    ensures answer { Reads (line_as insert_form (map (λ word. word.now) words.now)) result }
    ensures within { IfOk result IsLaneWithin }
{
    match words {
        [machine] => refused(insert_plain(machine)),
        [machine, barcode] => insert_barcode(alloc, machine, barcode),
        _ => Err(LineError::Refused(LineWhy::WrongCount)),
    }
}

fn insert_plain(machine: &[u8]) -> Result<LaneLine, LineWhy>
    ensures answer { result ≡ line_as insert_form (machine.now ∷ []) }
    ensures within { IfOk result IsLaneWithin }
{
    let at = place_word(machine, MOST_MACHINES)?;
    Ok(on_lane(
        at.lane,
        ScriptLine::Insert {
            machine: at.number,
            barcode: None,
        },
    ))
}

fn insert_barcode(alloc: Global, machine: &[u8], barcode: &[u8]) -> Result<LaneLine, LineError>
    ensures answer { Reads (line_as insert_form (machine.now ∷ barcode.now ∷ [])) result }
    ensures within { IfOk result IsLaneWithin }
{
    let at = match place_word(machine, MOST_MACHINES) {
        Ok(at) => at,
        Err(why) => return Err(LineError::Refused(why)),
    };
    match token(alloc, barcode) {
        Ok(barcode) => Ok(on_lane(
            at.lane,
            ScriptLine::Insert {
                machine: at.number,
                barcode: Some(barcode),
            },
        )),
        Err(error) => Err(error),
    }
}

pub fn query(alloc: Global, words: &[&[u8]]) -> Result<LaneLine, LineError>
    ensures answer { Reads (line_as query_form (map (λ word. word.now) words.now)) result }
    ensures within { IfOk result IsLaneWithin }
{
    match words {
        [machine, barcode] => query_barcode(alloc, machine, barcode),
        _ => Err(LineError::Refused(LineWhy::WrongCount)),
    }
}

fn query_barcode(alloc: Global, machine: &[u8], barcode: &[u8]) -> Result<LaneLine, LineError>
    ensures answer { Reads (line_as query_form (machine.now ∷ barcode.now ∷ [])) result }
    ensures within { IfOk result IsLaneWithin }
{
    let at = match place_word(machine, MOST_MACHINES) {
        Ok(at) => at,
        Err(why) => return Err(LineError::Refused(why)),
    };
    match token(alloc, barcode) {
        Ok(barcode) => Ok(on_lane(
            at.lane,
            ScriptLine::Query {
                machine: at.number,
                barcode,
            },
        )),
        Err(error) => Err(error),
    }
}

pub fn ask(alloc: Global, words: &[&[u8]]) -> Result<LaneLine, LineError>
    ensures answer { Reads (line_as ask_form (map (λ word. word.now) words.now)) result }
    ensures within { IfOk result IsLaneWithin }
{
    match words {
        [machine, word, text] => ask_by(alloc, machine, word, text),
        [machine, word, magazine, slot] => ask_place(alloc, machine, word, magazine, slot),
        _ => Err(LineError::Refused(LineWhy::WrongCount)),
    }
}

/// `ask m barcode w` and `ask m order w`.
fn ask_by(alloc: Global, machine: &[u8], word: &[u8], text: &[u8]) -> Result<LaneLine, LineError>
    ensures answer { Reads (line_as ask_form (machine.now ∷ word.now ∷ text.now ∷ [])) result }
    ensures within { IfOk result IsLaneWithin }
{
    let machine = match number(machine, 1, MOST_MACHINES) {
        Ok(machine) => machine as u32,
        Err(why) => return Err(LineError::Refused(why)),
    };
    let by = match asked_by(word) {
        Ok(by) => by,
        Err(why) => return Err(LineError::Refused(why)),
    };
    match token(alloc, text) {
        Ok(text) => Ok(on_lane(
            1,
            ScriptLine::Ask {
                machine,
                question: question(by, text),
            },
        )),
        Err(error) => Err(error),
    }
}

/// `ask m place w s`.
fn ask_place(
    alloc: Global,
    machine: &[u8],
    word: &[u8],
    magazine: &[u8],
    slot: &[u8],
) -> Result<LaneLine, LineError>
    ensures answer { Reads (line_as ask_form (machine.now ∷ word.now ∷ magazine.now ∷ slot.now ∷ [])) result }
    ensures within { IfOk result IsLaneWithin }
{
    let machine = match number(machine, 1, MOST_MACHINES) {
        Ok(machine) => machine as u32,
        Err(why) => return Err(LineError::Refused(why)),
    };
    if let Err(why) = literal(word, b"place") {
        return Err(LineError::Refused(why));
    }
    let magazine = match token(alloc, magazine) {
        Ok(magazine) => magazine,
        Err(error) => return Err(error),
    };
    let slot = match number(slot, 0, MOST_SLOT) {
        Ok(slot) => slot as u32,
        Err(why) => return Err(LineError::Refused(why)),
    };
    Ok(on_lane(
        1,
        ScriptLine::Ask {
            machine,
            question: Question::Place { magazine, slot },
        },
    ))
}

pub fn answer(alloc: Global, words: &[&[u8]]) -> Result<LaneLine, LineError>
    ensures answer { Reads (line_as answer_form (map (λ word. word.now) words.now)) result }
    ensures within { IfOk result IsLaneWithin }
{
    match words {
        [machine, query, order] => answer_with(alloc, machine, query, order),
        _ => Err(LineError::Refused(LineWhy::WrongCount)),
    }
}

fn answer_with(
    alloc: Global,
    machine: &[u8],
    query: &[u8],
    order: &[u8],
) -> Result<LaneLine, LineError>
    ensures answer { Reads (line_as answer_form (machine.now ∷ query.now ∷ order.now ∷ [])) result }
    ensures within { IfOk result IsLaneWithin }
{
    let machine = match number(machine, 1, MOST_MACHINES) {
        Ok(machine) => machine as u32,
        Err(why) => return Err(LineError::Refused(why)),
    };
    let query = match number(query, 0, MOST_QUERY) {
        Ok(query) => query,
        Err(why) => return Err(LineError::Refused(why)),
    };
    match token(alloc, order) {
        Ok(order) => Ok(on_lane(
            1,
            ScriptLine::Answer {
                machine,
                query,
                order,
            },
        )),
        Err(error) => Err(error),
    }
}

pub fn sub(alloc: Global, words: &[&[u8]]) -> Result<LaneLine, LineError>
    ensures answer { Reads (line_as sub_form (map (λ word. word.now) words.now)) result }
    ensures within { IfOk result IsLaneWithin }
{
    match words {
        [machine, id, pos, barcode] => sub_board(alloc, machine, id, pos, barcode),
        _ => Err(LineError::Refused(LineWhy::WrongCount)),
    }
}

fn sub_board(
    alloc: Global,
    machine: &[u8],
    id: &[u8],
    pos: &[u8],
    spelled_barcode: &[u8],
) -> Result<LaneLine, LineError>
    ensures answer { Reads (line_as sub_form (machine.now ∷ id.now ∷ pos.now ∷ spelled_barcode.now ∷ [])) result }
    ensures within { IfOk result IsLaneWithin }
{
    let at = match place_word(machine, MOST_MACHINES) {
        Ok(at) => at,
        Err(why) => return Err(LineError::Refused(why)),
    };
    let id = match identity(id) {
        Ok(id) => id,
        Err(why) => return Err(LineError::Refused(why)),
    };
    let pos = match number(pos, 0, MOST_POS) {
        Ok(pos) => pos as u32,
        Err(why) => return Err(LineError::Refused(why)),
    };
    match barcode(alloc, spelled_barcode) {
        Ok(barcode) => Ok(on_lane(
            at.lane,
            ScriptLine::Sub {
                machine: at.number,
                id,
                pos,
                barcode,
            },
        )),
        Err(error) => Err(error),
    }
}

pub fn remove(words: &[&[u8]]) -> Result<LaneLine, LineWhy>
    ensures answer { result ≡ line_as remove_form (map (λ word. word.now) words.now) }
    ensures within { IfOk result IsLaneWithin }
{
    let board = board_at(words)?;
    Ok(on_lane(
        board.place.lane,
        ScriptLine::Remove {
            machine: board.place.number,
            id: board.id,
        },
    ))
}

pub fn replace(words: &[&[u8]]) -> Result<LaneLine, LineWhy>
    ensures answer { result ≡ line_as replace_form (map (λ word. word.now) words.now) }
    ensures within { IfOk result IsLaneWithin }
{
    let board = board_at(words)?;
    Ok(on_lane(
        board.place.lane,
        ScriptLine::Replace {
            machine: board.place.number,
            id: board.id,
        },
    ))
}

/// A board by its id, and the machine that has it.
#[derive(Clone, Copy)]
struct BoardAt {
    place: Place,
    id: BoardId,
}

/// The machine and the id of a line that has these two words.
fn board_at(words: &[&[u8]]) -> Result<BoardAt, LineWhy>
    ensures answer { mapped_ok (λ at. placed at.place.number at.place.lane ∷ board at.id ∷ []) result
        ≡ arguments_as (2 ∷ []) (machine_place ∷ identity ∷ [])
        (map (λ word. word.now) words.now) }
    ensures within { IfOk result (λ at. IsBetween 1 4 at.place.lane × IsBetween 1 64 at.place.number) }
{
    match words {
        [machine, id] => board_of(machine, id),
        _ => Err(LineWhy::WrongCount),
    }
}

fn board_of(machine: &[u8], id: &[u8]) -> Result<BoardAt, LineWhy>
    ensures answer { mapped_ok (λ at. placed at.place.number at.place.lane ∷ board at.id ∷ []) result
        ≡ values_as (machine_place ∷ identity ∷ []) (machine.now ∷ id.now ∷ []) }
    ensures within { IfOk result (λ at. IsBetween 1 4 at.place.lane × IsBetween 1 64 at.place.number) }
{
    let place = place_word(machine, MOST_MACHINES)?;
    let id = identity(id)?;
    Ok(BoardAt { place, id })
}

pub fn shift(words: &[&[u8]]) -> Result<LaneLine, LineWhy>
    ensures answer { result ≡ line_as shift_form (map (λ word. word.now) words.now) }
    ensures within { IfOk result IsLaneWithin }
{
    match words {
        [machine, to, id] => shift_one(machine, to, id),
        _ => Err(LineWhy::WrongCount),
    }
}

fn shift_one(machine: &[u8], to: &[u8], id: &[u8]) -> Result<LaneLine, LineWhy>
    ensures answer { result ≡ line_as shift_form (machine.now ∷ to.now ∷ id.now ∷ []) }
    ensures within { IfOk result IsLaneWithin }
{
    let at = place_word(machine, MOST_MACHINES)?;
    let to = number(to, 1, MOST_LANES)? as u32;
    let id = identity(id)?;
    Ok(LaneLine::Shift {
        machine: at.number,
        from: at.lane,
        to,
        id,
    })
}

pub fn mark(words: &[&[u8]]) -> Result<LaneLine, LineWhy>
    ensures answer { result ≡ line_as mark_form (map (λ word. word.now) words.now) }
    ensures within { IfOk result IsLaneWithin }
{
    match words {
        [machine, id, quality] => mark_one(machine, id, quality),
        _ => Err(LineWhy::WrongCount),
    }
}

fn mark_one(machine: &[u8], id: &[u8], spelled_quality: &[u8]) -> Result<LaneLine, LineWhy>
    ensures answer { result
        ≡ line_as mark_form (machine.now ∷ id.now ∷ spelled_quality.now ∷ []) }
    ensures within { IfOk result IsLaneWithin }
{
    let at = place_word(machine, MOST_MACHINES)?;
    let id = identity(id)?;
    let quality = quality(spelled_quality)?;
    Ok(on_lane(
        at.lane,
        ScriptLine::Mark {
            machine: at.number,
            id,
            quality,
        },
    ))
}

pub fn hold(words: &[&[u8]]) -> Result<LaneLine, LineWhy>
    ensures answer { result ≡ line_as hold_form (map (λ word. word.now) words.now) }
    ensures within { IfOk result IsLaneWithin }
{
    let at = at_side(words)?;
    Ok(on_lane(
        at.place.lane,
        ScriptLine::Hold {
            machine: at.place.number,
            side: at.side,
        },
    ))
}

pub fn go(words: &[&[u8]]) -> Result<LaneLine, LineWhy>
    ensures answer { result ≡ line_as go_form (map (λ word. word.now) words.now) }
    ensures within { IfOk result IsLaneWithin }
{
    let at = at_side(words)?;
    Ok(on_lane(
        at.place.lane,
        ScriptLine::Go {
            machine: at.place.number,
            side: at.side,
        },
    ))
}

pub fn signal(words: &[&[u8]]) -> Result<LaneLine, LineWhy>
    ensures answer { result ≡ line_as signal_form (map (λ word. word.now) words.now) }
    ensures within { IfOk result IsLaneWithin }
{
    match words {
        [machine, line, on] => signal_at(machine, line, on),
        _ => Err(LineWhy::WrongCount),
    }
}

fn signal_at(machine: &[u8], line: &[u8], on: &[u8]) -> Result<LaneLine, LineWhy>
    ensures answer { result ≡ line_as signal_form (machine.now ∷ line.now ∷ on.now ∷ []) }
    ensures within { IfOk result IsLaneWithin }
{
    let at = place_word(machine, MOST_MACHINES)?;
    let line = segment_line(line)?;
    let on = switch(on)?;
    Ok(on_lane(
        at.lane,
        ScriptLine::Signal {
            machine: at.number,
            line,
            on,
        },
    ))
}

pub fn connect(words: &[&[u8]]) -> Result<LaneLine, LineWhy>
    ensures answer { result ≡ line_as connect_form (map (λ word. word.now) words.now) }
    ensures within { IfOk result IsLaneWithin }
{
    let at = only_place(words, MOST_MACHINES)?;
    Ok(on_lane(at.lane, ScriptLine::Connect { machine: at.number }))
}

pub fn flow(words: &[&[u8]]) -> Result<LaneLine, LineWhy>
    ensures answer { result ≡ line_as flow_form (map (λ word. word.now) words.now) }
    ensures within { IfOk result IsLaneWithin }
{
    match words {
        [machine, side] => flow_all(machine, side),
        [machine, side, count] => flow_some(machine, side, count),
        _ => Err(LineWhy::WrongCount),
    }
}

/// The rest of the oldest text arrives.
fn flow_all(machine: &[u8], spelled_side: &[u8]) -> Result<LaneLine, LineWhy>
    ensures answer { result ≡ line_as flow_form (machine.now ∷ spelled_side.now ∷ []) }
    ensures within { IfOk result IsLaneWithin }
{
    let at = place_word(machine, MOST_MACHINES)?;
    let side = side(spelled_side)?;
    Ok(on_lane(
        at.lane,
        ScriptLine::Flow {
            machine: at.number,
            side,
            bytes: None,
        },
    ))
}

/// So many bytes arrive.
fn flow_some(machine: &[u8], spelled_side: &[u8], count: &[u8]) -> Result<LaneLine, LineWhy>
    ensures answer { result
        ≡ line_as flow_form (machine.now ∷ spelled_side.now ∷ count.now ∷ []) }
    ensures within { IfOk result IsLaneWithin }
{
    let at = place_word(machine, MOST_MACHINES)?;
    let side = side(spelled_side)?;
    let count = number(count, 1, MOST_FLOW)? as u32;
    Ok(on_lane(
        at.lane,
        ScriptLine::Flow {
            machine: at.number,
            side,
            bytes: Some(count),
        },
    ))
}

pub fn notice(words: &[&[u8]]) -> Result<LaneLine, LineWhy>
    ensures answer { result ≡ line_as notice_form (map (λ word. word.now) words.now) }
    ensures within { IfOk result IsLaneWithin }
{
    let at = at_side(words)?;
    Ok(on_lane(
        at.place.lane,
        ScriptLine::Notice {
            machine: at.place.number,
            side: at.side,
        },
    ))
}

pub fn cut(words: &[&[u8]]) -> Result<LaneLine, LineWhy>
    ensures answer { result ≡ line_as cut_form (map (λ word. word.now) words.now) }
    ensures within { IfOk result IsLaneWithin }
{
    let at = only_place(words, MOST_GAPS)?;
    Ok(on_lane(at.lane, ScriptLine::Cut { gap: at.number }))
}

pub fn spoil(words: &[&[u8]]) -> Result<LaneLine, LineWhy>
    ensures answer { result ≡ line_as spoil_form (map (λ word. word.now) words.now) }
    ensures within { IfOk result IsLaneWithin }
{
    let at = at_side(words)?;
    Ok(on_lane(
        at.place.lane,
        ScriptLine::Spoil {
            machine: at.place.number,
            side: at.side,
        },
    ))
}

pub fn forecast(words: &[&[u8]]) -> Result<LaneLine, LineWhy>
    ensures answer { result ≡ line_as forecast_form (map (λ word. word.now) words.now) }
    ensures within { IfOk result IsLaneWithin }
{
    let at = only_place(words, MOST_MACHINES)?;
    Ok(on_lane(at.lane, ScriptLine::Forecast { machine: at.number }))
}

pub fn supervise(words: &[&[u8]]) -> Result<LaneLine, LineWhy>
    ensures answer { result ≡ line_as supervise_form (map (λ word. word.now) words.now) }
    ensures within { IfOk result IsLaneWithin }
{
    let machine = only_number(words, MOST_MACHINES)?;
    Ok(on_lane(1, ScriptLine::Supervise { machine }))
}

pub fn shutdown(words: &[&[u8]]) -> Result<LaneLine, LineWhy>
    ensures answer { result ≡ line_as shutdown_form (map (λ word. word.now) words.now) }
    ensures within { IfOk result IsLaneWithin }
{
    let at = only_place(words, MOST_MACHINES)?;
    Ok(on_lane(at.lane, ScriptLine::Shutdown { machine: at.number }))
}

pub fn stop(words: &[&[u8]]) -> Result<LaneLine, LineWhy>
    ensures answer { result ≡ line_as stop_form (map (λ word. word.now) words.now) }
    ensures within { IfOk result IsLaneWithin }
{
    let machine = only_number(words, MOST_MACHINES)?;
    Ok(on_lane(1, ScriptLine::Stop { machine }))
}

pub fn tick(words: &[&[u8]]) -> Result<LaneLine, LineWhy>
    ensures answer { result ≡ line_as tick_form (map (λ word. word.now) words.now) }
    ensures within { IfOk result IsLaneWithin }
{
    let at = only_place(words, MOST_MACHINES)?;
    Ok(on_lane(at.lane, ScriptLine::Tick { machine: at.number }))
}

pub fn fault(words: &[&[u8]]) -> Result<LaneLine, LineWhy>
    ensures answer { result ≡ line_as fault_form (map (λ word. word.now) words.now) }
    ensures within { IfOk result IsLaneWithin }
{
    let at = at_side(words)?;
    Ok(on_lane(
        at.place.lane,
        ScriptLine::Fault {
            machine: at.place.number,
            side: at.side,
        },
    ))
}

pub fn lie(words: &[&[u8]]) -> Result<LaneLine, LineWhy>
    ensures answer { result ≡ line_as lie_form (map (λ word. word.now) words.now) }
    ensures within { IfOk result IsLaneWithin }
{
    match words {
        [machine, side, event] => lie_one(machine, side, event),
        _ => Err(LineWhy::WrongCount),
    }
}

fn lie_one(machine: &[u8], spelled_side: &[u8], spelled_event: &[u8]) -> Result<LaneLine, LineWhy>
    ensures answer { result
        ≡ line_as lie_form (machine.now ∷ spelled_side.now ∷ spelled_event.now ∷ []) }
    ensures within { IfOk result IsLaneWithin }
{
    let at = place_word(machine, MOST_MACHINES)?;
    let side = side(spelled_side)?;
    let event = event(spelled_event)?;
    lie_at(at, side, event)
}

/// `BadWord` where the sensors of that side see no such event.
fn lie_at(at: Place, side: Side, event: SensorEvent) -> Result<LaneLine, LineWhy>
    requires { IsBetween 1 4 at.lane × IsBetween 1 64 at.number }
    ensures answer { result ≡ lie_of at.lane at.number side event }
    ensures within { IfOk result IsLaneWithin }
{
    if !is_seen_at(side, event) {
        return Err(LineWhy::BadWord);
    }
    Ok(on_lane(
        at.lane,
        ScriptLine::Lie {
            machine: at.number,
            sensed: Sensed { side, event },
        },
    ))
}

/// Whether the sensors of a side see such events.
fn is_seen_at(side: Side, event: SensorEvent) -> bool
    ensures { result ≡ is_seen_at side event }
{
    match (side, event) {
        (Side::Entry, SensorEvent::Left) => false,
        (Side::Exit, SensorEvent::Full) => false,
        (Side::Entry | Side::Exit, _) => true,
    }
}

/// The side comes before the machine: `unseen in 2`.
pub fn unseen(words: &[&[u8]]) -> Result<LaneLine, LineWhy>
    ensures answer { result ≡ line_as unseen_form (map (λ word. word.now) words.now) }
    ensures within { IfOk result IsLaneWithin }
{
    match words {
        [spelled_side, machine] => {
            let side = side(spelled_side)?;
            let at = place_word(machine, MOST_MACHINES)?;
            Ok(on_lane(
                at.lane,
                ScriptLine::Unseen {
                    machine: at.number,
                    side,
                },
            ))
        }
        _ => Err(LineWhy::WrongCount),
    }
}

/// A machine, and one of its sides.
#[derive(Clone, Copy)]
struct AtSide {
    place: Place,
    side: Side,
}

/// The machine and the side of a line that has these two words.
fn at_side(words: &[&[u8]]) -> Result<AtSide, LineWhy>
    ensures answer { mapped_ok (λ at. placed at.place.number at.place.lane ∷ sided at.side ∷ []) result
        ≡ arguments_as (2 ∷ []) (machine_place ∷ side_word ∷ [])
        (map (λ word. word.now) words.now) }
    ensures within { IfOk result (λ at. IsBetween 1 4 at.place.lane × IsBetween 1 64 at.place.number) }
{
    match words {
        [machine, spelled_side] => side_of(machine, spelled_side),
        _ => Err(LineWhy::WrongCount),
    }
}

fn side_of(machine: &[u8], spelled_side: &[u8]) -> Result<AtSide, LineWhy>
    ensures answer { mapped_ok (λ at. placed at.place.number at.place.lane ∷ sided at.side ∷ []) result
        ≡ values_as (machine_place ∷ side_word ∷ []) (machine.now ∷ spelled_side.now ∷ []) }
    ensures within { IfOk result (λ at. IsBetween 1 4 at.place.lane × IsBetween 1 64 at.place.number) }
{
    let place = place_word(machine, MOST_MACHINES)?;
    let side = side(spelled_side)?;
    Ok(AtSide { place, side })
}

pub fn sense(words: &[&[u8]]) -> Result<LaneLine, LineWhy>
    ensures answer { result ≡ line_as sense_form (map (λ word. word.now) words.now) }
    ensures within { IfOk result IsLaneWithin }
{
    let at = only_place(words, MOST_MACHINES)?;
    Ok(on_lane(at.lane, ScriptLine::Sense { machine: at.number }))
}

pub fn begin(words: &[&[u8]]) -> Result<LaneLine, LineWhy>
    ensures answer { result ≡ line_as begin_form (map (λ word. word.now) words.now) }
    ensures within { IfOk result IsLaneWithin }
{
    let at = only_place(words, MOST_GAPS)?;
    Ok(on_lane(at.lane, ScriptLine::Begin { gap: at.number }))
}

pub fn left(words: &[&[u8]]) -> Result<LaneLine, LineWhy>
    ensures answer { result ≡ line_as left_form (map (λ word. word.now) words.now) }
    ensures within { IfOk result IsLaneWithin }
{
    let at = only_place(words, MOST_GAPS)?;
    Ok(on_lane(at.lane, ScriptLine::Left { gap: at.number }))
}

pub fn enter(words: &[&[u8]]) -> Result<LaneLine, LineWhy>
    ensures answer { result ≡ line_as enter_form (map (λ word. word.now) words.now) }
    ensures within { IfOk result IsLaneWithin }
{
    let at = only_place(words, MOST_GAPS)?;
    Ok(on_lane(at.lane, ScriptLine::Enter { gap: at.number }))
}

pub fn back(words: &[&[u8]]) -> Result<LaneLine, LineWhy>
    ensures answer { result ≡ line_as back_form (map (λ word. word.now) words.now) }
    ensures within { IfOk result IsLaneWithin }
{
    let at = only_place(words, MOST_GAPS)?;
    Ok(on_lane(at.lane, ScriptLine::Back { gap: at.number }))
}

pub fn hand_in(words: &[&[u8]]) -> Result<LaneLine, LineWhy>
    ensures answer { result ≡ line_as hand_in_form (map (λ word. word.now) words.now) }
    ensures within { IfOk result IsLaneWithin }
{
    let at = only_place(words, MOST_GAPS)?;
    Ok(on_lane(at.lane, ScriptLine::HandIn { gap: at.number }))
}

pub fn take(words: &[&[u8]]) -> Result<LaneLine, LineWhy>
    ensures answer { result ≡ line_as take_form (map (λ word. word.now) words.now) }
    ensures within { IfOk result IsLaneWithin }
{
    let at = only_place(words, MOST_GAPS)?;
    Ok(on_lane(at.lane, ScriptLine::Take { gap: at.number }))
}

/// The one place of a line, its number from 1 to `most`.
fn only_place(words: &[&[u8]], most: u64) -> Result<Place, LineWhy>
    requires { most ≤ 64 }
    ensures answer { mapped_ok (λ at. placed at.number at.lane ∷ []) result
        ≡ arguments_as (1 ∷ []) (place_number most ∷ []) (map (λ word. word.now) words.now) }
    ensures within { IfOk result (λ at. IsBetween 1 4 at.lane × IsBetween 1 most at.number) }
{
    match words {
        [word] => place_word(word, most),
        _ => Err(LineWhy::WrongCount),
    }
}

/// The one number of a line, from 1 to `most`.
fn only_number(words: &[&[u8]], most: u64) -> Result<u32, LineWhy>
    requires { most ≤ 64 }
    ensures answer { mapped_ok (λ value. numeral value ∷ []) result
        ≡ arguments_as (1 ∷ []) (number 1 most ∷ []) (map (λ word. word.now) words.now) }
    ensures within { IfOk result (IsBetween 1 most) }
{
    match words {
        [word] => Ok(number(word, 1, most)? as u32),
        _ => Err(LineWhy::WrongCount),
    }
}

pub fn lanes(words: &[&[u8]]) -> Result<LaneLine, LineWhy>
    ensures answer { result ≡ line_as lanes_form (map (λ word. word.now) words.now) }
    ensures within { IfOk result IsLaneWithin }
{
    let count = only_number(words, MOST_LANES)?;
    Ok(LaneLine::Lanes { count })
}

pub fn show(words: &[&[u8]]) -> Result<LaneLine, LineWhy>
    ensures answer { result ≡ line_as show_form (map (λ word. word.now) words.now) }
    ensures within { IfOk result IsLaneWithin }
{
    match words {
        [] => Ok(on_lane(1, ScriptLine::Show)),
        _ => Err(LineWhy::WrongCount),
    }
}
