//! What is read of a machine: an act of its last step, a board, and their texts.

ghost use Rattle.std.specs.Prelude.{◌≡◌, ◌≤◌, ◌&&◌, ◌==◌, drop, IfSome, is_some, nat_le, slice_get};
ghost use Rattle.machine_port.specs.Acts.{act_seen};
ghost use Rattle.machine_port.specs.Records.{board_seen, field_text, record_at};
ghost use Rattle.machine_log.specs.Texts.{log_text};
ghost use Rattle.machine_text.specs.Logs.{TellsOwn};
ghost use Rattle.hermes_machine.specs.Calls.{IsCopied, IsCopiedOrWanting, IsRead, IsReadOrWanting, board_answer, field_in, read_answer, text_of_act, text_of_field, text_of_log, text_of_order, text_or_none};

use crate::answer::{BAD_INPUT, DONE, NONE};
use board_record::Record;
use line_base::Memory;
use machine_log::write_log_text;
use machine_port::{
    ACT_BYTES, BOARD_BYTES, HermesAct, HermesBoard, Port, act_seen, board_seen, copy_front,
    record_at, write_field,
};
use machine_text::write_log;
use node_core::Act;
use std::alloc::Global;

/// The last place of records.
const LAST_PLACE: u32 = 2;

/// The last number of a field.
const LAST_FIELD: u32 = 12;

/// Writes how an act of the last step is seen.
pub fn read_act(port: &Port, index: u32, to: &mut HermesAct) -> i32
    ensures answer { result
        ≡ read_answer (to.old.size == ACT_BYTES) (is_some (slice_get port.now.last index)) }
    ensures seen { result ≡ DONE
        → IfSome (slice_get port.now.last index) (λ act. to.new ≡ act_seen act) }
    ensures unseen { ¬ (result ≡ DONE) → to.new ≡ to.old }
{
    if to.size != ACT_BYTES {
        return BAD_INPUT;
    }
    match port.last().get(index as usize) {
        Some(act) => {
            *to = act_seen(act);
            DONE
        }
        None => NONE,
    }
}

/// Writes how a record is seen.
pub fn read_board(port: &Port, place: u32, index: u32, to: &mut HermesBoard) -> i32
    ensures answer { result
        ≡ read_answer (to.old.size == BOARD_BYTES && nat_le place 2)
        (is_some (record_at place index port.now.node)) }
    ensures seen { result ≡ DONE
        → IfSome (record_at place index port.now.node) (λ r. to.new ≡ board_seen r) }
    ensures unseen { ¬ (result ≡ DONE) → to.new ≡ to.old }
{
    if to.size != BOARD_BYTES || place > LAST_PLACE {
        return BAD_INPUT;
    }
    match record_at(port.node(), place, index) {
        Some(board) => {
            *to = board_seen(board);
            DONE
        }
        None => NONE,
    }
}

/// Copies the text of an act of the last step, from a byte on.
pub fn read_act_text(alloc: Global, port: &Port, index: u32, from: usize, to: &mut [u8]) -> i64
    ensures { IsReadOrWanting (text_of_act index from (Some port.now)) to.old to.new result }
{
    match port.last().get(index as usize) {
        Some(act) => copy_act(alloc, port.number(), act, from, to),
        None => -6,
    }
}

fn copy_act(alloc: Global, number: u32, act: &Act, from: usize, to: &mut [u8]) -> i64
    ensures { IsCopiedOrWanting (drop from (log_text number act.now)) to.old to.new result }
{
    let mut text = Vec::new(alloc);
    match write_log_text(number, act, &mut text) {
        Ok(()) => copy_front(text.as_slice(), from, to) as i64,
        Err(Memory) => -2,
    }
}

/// Copies the lines of the last step, from a byte on.
pub fn read_log(alloc: Global, port: &Port, from: usize, to: &mut [u8]) -> i64
    ensures read { IsReadOrWanting (text_of_log from (Some port.now)) to.old to.new result }
    ensures owns { TellsOwn port.now }
{
    let mut text = Vec::new(alloc);
    if let Err(Memory) = write_log(port, &mut text) {
        return -2;
    }
    copy_front(text.as_slice(), from, to) as i64
}

/// Copies the text of a record's field.
pub fn read_field(
    alloc: Global,
    port: &Port,
    place: u32,
    index: u32,
    field: u32,
    to: &mut [u8],
) -> i64
    ensures { IsReadOrWanting (text_of_field place index field (Some port.now))
        to.old to.new result }
{
    if place > LAST_PLACE || field > LAST_FIELD {
        return -3;
    }
    match record_at(port.node(), place, index) {
        Some(board) => copy_field(alloc, board, field, to),
        None => -6,
    }
}

fn copy_field(alloc: Global, board: &Record, field: u32, to: &mut [u8]) -> i64
    ensures { IsReadOrWanting (text_or_none (field_text field board.now)) to.old to.new result }
{
    let mut text = Vec::new(alloc);
    match write_field(board, field, &mut text) {
        Ok(true) => copy_front(text.as_slice(), 0, to) as i64,
        Ok(false) => -6,
        Err(Memory) => -2,
    }
}

/// Copies the work order that the question of this number was answered with.
pub fn read_order(port: &Port, query: u64, to: &mut [u8]) -> i64
    ensures { IsRead (text_of_order query (Some port.now)) to.old to.new result }
{
    match port.node().kept_answer(query) {
        Some(order) => copy_front(order.bytes(), 0, to) as i64,
        None => -6,
    }
}
