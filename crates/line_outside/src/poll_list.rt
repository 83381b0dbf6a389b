ghost use Rattle.std.specs.Prelude.{◌≡◌, ◌<◌, ◌≤◌, false, List, ℕ, IfOk, drop, length, min};
ghost use Rattle.line_outside.specs.Given.{got_bytes, is_same_way};
ghost use Rattle.line_outside.specs.Left.{left_of, starts_empty};
ghost use Rattle.line_outside.specs.Ports.{IsGotWithin};
ghost use Rattle.line_outside.specs.Store.{answers_of, passed, found_first, left_first, found_next, left_next};

use crate::answer::{GotBytes, PortAnswer};
use crate::ports::Got;
use crate::steady_source::fill;
use crate::way::Way;
use line_base::Memory;
use std::alloc::Global;
use std::collections::VecDeque;
use std::marker::Model;

/// What polls of one way will find, in their order. It is seen as what is left.
#[derive(Debug, Drop)]
pub struct PollList {
    answers: VecDeque<GotBytes>,
    used: usize,
}

impl Model for PollList {
    ghost use Rattle.std.specs.Prelude.{List};
    ghost use Rattle.line_outside.specs.Left.{left_of};
    ghost use Rattle.line_outside.specs.declared.answer.GotBytes.{GotBytes};

    ghost Value = { List GotBytes };

    ghost view = { λ list. left_of list.used list.answers.items };
}

impl PollList {
    /// Of these answers those of the way.
    pub fn of(alloc: Global, answers: &[PortAnswer], way: Way) -> Result<PollList, Memory>
        ensures { IfOk result (λ list. list ≡ answers_of way answers.now) }
    {
        let answers = own_answers(alloc, answers, way)?;
        Ok(PollList { answers, used: 0 })
    }

    /// What the next poll finds.
    pub fn next(&mut self, room: &mut [u8]) -> Got
        requires { 0 < length room.old }
        ensures found { got_bytes result room.new ≡ found_next self.old (length room.new) }
        ensures left { self.new ≡ left_next self.old (length room.new) }
        ensures within { IsGotWithin (length room.new) result }
    {
        self.pass_over();
        self.take_first(room)
    }

    /// Takes the first answer, or as many of its bytes as fit the room.
    fn take_first(&mut self, room: &mut [u8]) -> Got
        requires full { 0 < length room.old }
        requires more { starts_empty self.old ≡ false }
        ensures found { got_bytes result room.new ≡ found_first self.old (length room.new) }
        ensures left { self.new ≡ left_first self.old (length room.new) }
        ensures within { IsGotWithin (length room.new) result }
    {
        match self.answers.front() {
            Some(GotBytes::Bytes(word)) => {
                let count = fill(room, behind(word.bytes(), self.used));
                self.used += count;
                Got::Bytes(count)
            }
            Some(GotBytes::Arrived) => self.pop(Got::Arrived),
            Some(GotBytes::Second) => self.pop(Got::Second),
            Some(GotBytes::NotYet) => self.pop(Got::NotYet),
            Some(GotBytes::Closed) => self.pop(Got::Closed),
            Some(GotBytes::Failed) => self.pop(Got::Failed),
            None => Got::NotYet,
        }
    }

    /// Takes the first answer away, and answers this.
    fn pop(&mut self, got: Got) -> Got
        ensures got { result ≡ got }
        ensures rest { self.new ≡ drop 1 self.old }
    {
        let _ = self.answers.pop_front();
        self.used = 0;
        got
    }

    /// Passes over bytes that are none, or all given.
    fn pass_over(&mut self)
        ensures passed { self.new ≡ passed self.old }
        ensures more { starts_empty self.new ≡ false }
    {
        while is_given(&self.answers, self.used) {
            let _ = self.answers.pop_front();
            self.used = 0;
        }
    }
}

/// Whether the first answer is bytes, and all of them were given.
fn is_given(answers: &VecDeque<GotBytes>, used: usize) -> bool
    ensures { result ≡ starts_empty (left_of used answers.now.items) }
{
    match answers.front() {
        Some(GotBytes::Bytes(word)) => word.bytes().len() <= used,
        _ => false,
    }
}

/// Of these answers those of the way.
fn own_answers(
    alloc: Global,
    answers: &[PortAnswer],
    way: Way,
) -> Result<VecDeque<GotBytes>, Memory>
    ensures { IfOk result (λ own. own.items ≡ answers_of way answers.now) }
{
    let mut own = VecDeque::new(alloc);
    for answer in answers {
        if is_same_way(way, answer.way) {
            own.push_back(answer.got.copy(alloc)?)?;
        }
    }
    Ok(own)
}

fn is_same_way(one: Way, other: Way) -> bool
    ensures { result ≡ is_same_way one other }
{
    match one {
        Way::Panel => matches!(other, Way::Panel),
        Way::Upstream => matches!(other, Way::Upstream),
        Way::Downstream => matches!(other, Way::Downstream),
        Way::Supervisory => matches!(other, Way::Supervisory),
        Way::Configuration => matches!(other, Way::Configuration),
    }
}

/// What stands behind the first so many bytes.
fn behind(bytes: &[u8], count: usize) -> &[u8]
    ensures { result.now ≡ drop count bytes.now }
{
    &bytes[count.min(bytes.len())..]
}
