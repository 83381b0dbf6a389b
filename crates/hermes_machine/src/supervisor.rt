//! The calls over a supervisor's connection.

ghost use Rattle.std.specs.Prelude.{◌≡◌, ◌≤◌, true, length};
ghost use Rattle.line_base.specs.Moment.{IsMomentMillis};
ghost use Rattle.machine_port.specs.Supervisor.{DoesHear, HasLeft, heard, unstepped};
ghost use Rattle.hermes_machine.specs.Supervised.{AnswersBytes, AnswersClosed, AnswersMessage, AnswersSecond, DoesIf, IsDoneOrWanting, IsRefusedOrWanting, answer_of_done, may_hear};

use crate::answer::{BAD_INPUT, DONE, MEMORY, NONE};
use crate::input::MOST_BYTES;
use crate::step::is_moment;
use line_base::{Memory, Moment};
use machine_port::Port;

/// Bytes came: the answer of the call.
pub fn hear(port: &mut Port, bytes: &[u8]) -> i32
    ensures { AnswersBytes bytes.now port.old port.new result }
{
    if !may_hear(port, bytes) {
        return BAD_INPUT;
    }
    heard(port, bytes)
}

/// Whether bytes can be heard: as many as a call takes, and all that came before was heard.
fn may_hear(port: &Port, bytes: &[u8]) -> bool
    ensures may { result ≡ may_hear bytes.now port.now }
    ensures short { result ≡ true → length bytes.now ≤ 4096 }
{
    bytes.len() <= MOST_BYTES && !port.hears_supervisor()
}

fn heard(port: &mut Port, bytes: &[u8]) -> i32
    requires { length bytes.now ≤ 4096 }
    ensures { IsDoneOrWanting
        (port.new ≡ heard port.old.supervisor.closes bytes.now port.old) port.old port.new
        result }
{
    answer_of_done(port.hear_supervisor(bytes))
}

/// The next message is done: the answer of the call.
pub fn do_next(port: &mut Port, now_ms: i64) -> i32
    ensures { AnswersMessage now_ms port.old port.new result }
{
    if !is_moment(now_ms) {
        return BAD_INPUT;
    }
    do_next_at(port, Moment::of_millis(now_ms))
}

/// At a moment of the clock.
fn do_next_at(port: &mut Port, now: Moment) -> i32
    ensures { DoesIf port.old.channel.hears now port.old port.new result }
{
    if !port.hears_supervisor() {
        return NONE;
    }
    done(port, now)
}

fn done(port: &mut Port, now: Moment) -> i32
    ensures { IsDoneOrWanting
        (DoesHear now (unstepped port.old) port.new) port.old port.new result }
{
    answer_of_done(port.take_message(now))
}

/// The connection is closed: the answer of the call.
pub fn leave(port: &mut Port, now_ms: i64) -> i32
    ensures { AnswersClosed now_ms port.old port.new result }
{
    if !is_moment(now_ms) {
        return BAD_INPUT;
    }
    left(port, Moment::of_millis(now_ms))
}

fn left(port: &mut Port, now: Moment) -> i32
    ensures { IsDoneOrWanting (HasLeft now port.old port.new) port.old port.new result }
{
    answer_of_done(port.close_supervisor(now))
}

/// A second connection was accepted: the answer of the call.
pub fn refuse_second(port: &mut Port, now_ms: i64) -> i32
    ensures { AnswersSecond now_ms port.old port.new result }
{
    if !is_moment(now_ms) {
        return BAD_INPUT;
    }
    refused(port, Moment::of_millis(now_ms))
}

fn refused(port: &mut Port, now: Moment) -> i32
    ensures { IsRefusedOrWanting now port.old port.new result }
{
    answer_of_done(port.refuse_supervisor(now))
}

fn answer_of_done(done: Result<(), Memory>) -> i32
    ensures { result ≡ answer_of_done done }
{
    match done {
        Ok(()) => DONE,
        Err(Memory) => MEMORY,
    }
}
