ghost use Rattle.std.specs.Prelude.{◌≡◌};
ghost use Rattle.hermes_machine.specs.Calls.{AnswersAsked, AnswersLine};
ghost use Rattle.hermes_machine.specs.Numbers.{answer_of_line};

use crate::answer::{BAD_INPUT, DONE, MEMORY, number_of_no, number_of_unasked};
use crate::step::is_moment;
use line_base::Moment;
use machine_port::Port;
use machine_text::{LineNotDone, do_line};
use std::alloc::Global;

/// A machine is told by a line of a panel: the answer of the call.
pub fn tell_line(alloc: Global, port: &mut Port, line: &[u8], now_ms: i64) -> i32
    ensures { AnswersLine line.now now_ms port.old port.new result }
{
    if !is_moment(now_ms) {
        return BAD_INPUT;
    }
    answer_line(alloc, port, line, Moment::of_millis(now_ms))
}

/// At a moment of the clock.
fn answer_line(alloc: Global, port: &mut Port, line: &[u8], now: Moment) -> i32
    ensures { AnswersAsked line.now now port.old port.new result }
{
    answer_of_line(do_line(alloc, port, line, now))
}

fn answer_of_line(done: Result<(), LineNotDone>) -> i32
    ensures { result ≡ answer_of_line done }
{
    match done {
        Ok(()) => DONE,
        Err(LineNotDone::NotAsked(why)) => number_of_unasked(why),
        Err(LineNotDone::No(why)) => number_of_no(why),
        Err(LineNotDone::Memory) => MEMORY,
    }
}
