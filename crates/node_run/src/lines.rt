//! The panel's lines.

ghost use Rattle.std.specs.Prelude.{◌≡◌, ◌==◌, ◌≤◌, ◌<◌, [], Ok, OnOk, IfOk, IfSome, length, drop, position};
ghost use Rattle.book_entry.specs.Given.{own_of};
ghost use Rattle.book_entry.specs.Short.{IsShort};
ghost use Rattle.node_core.specs.May.{may_of};
ghost use Rattle.node_run.specs.Lines.{AsksConnect, DoesAsked, DoesInput, DoesLine, Ends, Fronts, Tells, cut_line, without_return};
ghost use Rattle.node_run.specs.Cuts.{HasCut, fronted};
ghost use Rattle.node_panel.specs.Panel.{panel_line_of};
ghost use Rattle.machine_log.specs.Texts.{no_line, refused_line};
ghost use Rattle.node_panel.specs.Inputs.{input_of};

use crate::run::Run;
use crate::status::NodeStatus;
use board_record::Sensed;
use line_base::{Memory, Moment};
use line_report::Reason;
use line_script::{LineError, LineWhy, MOST_LINE_BYTES};
use machine_log::{write_no, write_refused};
use node_core::{Input, No};
use node_panel::{PanelLine, input_of, read_panel_line};
use std::mem;

impl Run {
    /// Does the next of the panel's lines, or keeps the front of one.
    pub fn take_line(&mut self, moment: Moment) -> Result<(), Memory>
        requires { self.old.told ≡ [] }
        ensures rules { self.new.rules ≡ self.old.rules }
        ensures line { OnOk result
            (DoesLine self.old.rules moment self.old.state self.new.state self.new.told) }
    {
        if self.cut_rest()? {
            return self.end_line(moment);
        }
        self.keep_front()
    }

    /// Puts what stands before the next end of a line behind the front of that line. Says whether
    /// there is an end.
    fn cut_rest(&mut self) -> Result<bool, Memory>
        ensures rules { self.new.rules ≡ self.old.rules }
        ensures told { self.new.told ≡ self.old.told }
        ensures cut { IfOk result
            (λ is_end. HasCut (cut_line self.old.state.rest) is_end self.old.state self.new.state) }
    {
        match end_of_line(self.rest()) {
            Some(place) => {
                self.take_front(place)?;
                self.pass_byte();
                Ok(true)
            }
            None => {
                let count = self.rest().len();
                self.take_front(count)?;
                Ok(false)
            }
        }
    }

    /// Passes over a byte of the panel's text.
    fn pass_byte(&mut self)
        requires { 1 ≤ length self.old.state.rest }
        ensures { self.new
            ≡ record self.old
            { state = record self.old.state { rest = drop 1 self.old.state.rest } } }
    {
        self.done += 1;
    }

    /// Puts the next bytes behind the front of the line, unless that line is dropped.
    fn take_front(&mut self, count: usize) -> Result<(), Memory>
        requires { count ≤ length self.old.state.rest }
        ensures rules { self.new.rules ≡ self.old.rules }
        ensures told { self.new.told ≡ self.old.told }
        ensures fronted { OnOk result (self.new.state ≡ fronted count self.old.state) }
    {
        let start = self.done;
        self.done += count;
        if self.drops {
            return Ok(());
        }
        match self.line.extend_from_slice(&self.rest[start..self.done]) {
            Ok(()) => Ok(()),
            Err(_) => Err(Memory),
        }
    }

    /// A front without its end is kept, unless the line is certain to be too long.
    fn keep_front(&mut self) -> Result<(), Memory>
        requires { self.old.told ≡ [] }
        ensures rules { self.new.rules ≡ self.old.rules }
        ensures fronts { OnOk result
            (Fronts self.old.state.drops self.old.state.line self.old.state self.new.state
            self.new.told) }
    {
        if self.drops || without_return(self.line.as_slice()).len() <= MOST_LINE_BYTES {
            return Ok(());
        }
        self.line.clear();
        self.drops = true;
        self.refuse_line(LineWhy::LongLine)
    }

    /// Does the line whose end came, unless it is dropped.
    fn end_line(&mut self, moment: Moment) -> Result<(), Memory>
        requires { self.old.told ≡ [] }
        ensures rules { self.new.rules ≡ self.old.rules }
        ensures ends { OnOk result
            (Ends self.old.state.drops self.old.state.line self.old.rules moment self.old.state
            self.new.state self.new.told) }
    {
        if self.drops {
            self.drops = false;
            return Ok(());
        }
        let line = mem::replace(&mut self.line, Vec::new(self.alloc));
        self.do_text(line.as_slice(), moment)
    }

    /// Does what a whole line asks for, or tells why it is refused.
    fn do_text(&mut self, line: &[u8], moment: Moment) -> Result<(), Memory>
        requires { self.old.told ≡ [] }
        ensures rules { self.new.rules ≡ self.old.rules }
        ensures does { OnOk result
            (DoesAsked
            (panel_line_of (without_return line.now)) self.old.rules moment self.old.state
            self.new.state self.new.told) }
    {
        match read_panel_line(self.alloc, without_return(line)) {
            Ok(asked) => self.do_line(asked, moment),
            Err(LineError::Refused(why)) => self.refuse_line(why),
            Err(LineError::Memory) => Err(Memory),
        }
    }

    fn refuse_line(&mut self, why: LineWhy) -> Result<(), Memory>
        requires { self.old.told ≡ [] }
        ensures rules { self.new.rules ≡ self.old.rules }
        ensures tells { OnOk result
            (Tells (refused_line self.old.state.turn why) self.old.state self.new.state
            self.new.told) }
    {
        write_refused(self.turn, why, &mut self.told)?;
        self.echo()
    }

    fn tell_no(&mut self, reason: Reason) -> Result<(), Memory>
        requires { self.old.told ≡ [] }
        ensures rules { self.new.rules ≡ self.old.rules }
        ensures tells { OnOk result
            (Tells (no_line self.old.state.turn reason) self.old.state self.new.state
            self.new.told) }
    {
        write_no(self.turn, &reason, &mut self.told)?;
        self.echo()
    }

    fn do_line(&mut self, asked: PanelLine, moment: Moment) -> Result<(), Memory>
        requires { self.old.told ≡ [] }
        ensures rules { self.new.rules ≡ self.old.rules }
        ensures does { OnOk result
            (DoesAsked
            (Ok asked) self.old.rules moment self.old.state self.new.state self.new.told) }
    {
        match asked {
            PanelLine::Blank => Ok(()),
            PanelLine::End => {
                self.ended = Some(NodeStatus::Done);
                Ok(())
            }
            PanelLine::Show => self.show(),
            PanelLine::Connect => self.ask_connection(),
            PanelLine::Sense { sensed } => self.do_input(&[sensed], Input::Nothing, moment),
            asked => self.do_input(&[], line_input(asked), moment),
        }
    }

    /// A step with the input, whose lines go to the panel too, or the reason against it.
    fn do_input(
        &mut self,
        sensed: &[Sensed],
        input: Input<'_>,
        moment: Moment,
    ) -> Result<(), Memory>
        requires told { self.old.told ≡ [] }
        requires events { length sensed.now ≤ 65535 }
        requires short { IsShort (own_of input) }
        ensures rules { self.new.rules ≡ self.old.rules }
        ensures does { OnOk result
            (DoesInput
            (may_of self.old.state.node input.entry) self.old.rules moment sensed.now input.entry
            self.old.state self.new.state self.new.told) }
    {
        if let Err(why) = self.node.may(&input) {
            return self.tell_no(Reason::Node(why));
        }
        self.step_asked(sensed, input, moment)
    }

    /// Asks for a connection to the upstream neighbour, or tells why there can't be one.
    fn ask_connection(&mut self) -> Result<(), Memory>
        requires { self.old.told ≡ [] }
        ensures rules { self.new.rules ≡ self.old.rules }
        ensures asks { OnOk result
            (AsksConnect self.old.state.settings.upstream self.old.state self.new.state
            self.new.told) }
    {
        if self.settings.settings().upstream.is_none() {
            return self.tell_no(Reason::NoNeighbour);
        }
        if self.upstream.has_ended() {
            return self.tell_no(Reason::Node(No::Connected));
        }
        if let Err(why) = self.node.may(&Input::Connect) {
            return self.tell_no(Reason::Node(why));
        }
        self.asks = true;
        Ok(())
    }
}

/// Where the first end of a line stands.
fn end_of_line(bytes: &[u8]) -> Option<usize>
    ensures place { result ≡ position (λ b. b == 10) bytes.now }
    ensures within { IfSome result (λ place. place < length bytes.now) }
{
    bytes.iter().position(|byte| *byte == b'\n')
}

/// A line without the carriage return at its end.
fn without_return(line: &[u8]) -> &[u8]
    ensures { result.now ≡ without_return line.now }
{
    match line {
        [front @ .., b'\r'] => front,
        _ => line,
    }
}

/// The input that a line gives to the machine.
fn line_input(asked: PanelLine) -> Input<'static>
    ensures input { result ≡ input_of asked }
    ensures short { IsShort (own_of result) }
{
    input_of(asked)
}
