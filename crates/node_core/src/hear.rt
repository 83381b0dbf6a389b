ghost use Rattle.std.specs.Prelude.{◌≡◌, ◌++◌, OnOk, IfOk, true};
ghost use Rattle.line_base.specs.declared.states.Side.TheVariants.{Exit, Entry};
ghost use Rattle.hermes_horizontal.specs.Parts.{kind_of};
ghost use Rattle.session_core.specs.Breach.{unexpected};
ghost use Rattle.session_core.specs.Passing.{pass_open};
ghost use Rattle.handover_out.specs.State.{would_open};
ghost use Rattle.handover_out.specs.Given.{IsGiven};
ghost use Rattle.handover_in.specs.Given.{IsGiven as IsGivenIn};
ghost use Rattle.node_core.specs.Sides.{session_at, is_open};
ghost use Rattle.node_core.specs.Halves.{OffersFront};
ghost use Rattle.node_core.specs.Session.{breaches};
ghost use Rattle.node_core.specs.Hears.{exit_word, entry_word, exit_took, entry_took, side_took, start_took, at_exit, at_entry, passed, taken, hears};

use crate::act::{Act, Outputs};
use crate::desk::Desk;
use crate::lane::Body;
use crate::word::{EntryWord, ExitWord};
use board_record::BoardId;
use handover_in::InInput;
use handover_out::OutInput;
use hermes_horizontal::{Horizontal, Kind, Message, Said};
use line_base::{Memory, Side, Text, copied_text};
use session_core::{Action, Actions, Breach};
use std::alloc::Global;

fn exit_word(alloc: Global, what: &Horizontal) -> Result<ExitWord, Memory>
    ensures { IfOk result (λ word. word ≡ exit_word what.now) }
{
    match what {
        Horizontal::MachineReady { .. } => Ok(ExitWord::Ready),
        Horizontal::RevokeMachineReady => Ok(ExitWord::Unready),
        Horizontal::StartTransport { id } => Ok(ExitWord::Start(*id)),
        Horizontal::StopTransport { state, id } => Ok(ExitWord::Stop(*state, *id)),
        Horizontal::QueryBoardInfo { top, bottom } => {
            Ok(ExitWord::Query(copied_text(alloc, top)?, copied_text(alloc, bottom)?))
        }
        _ => Ok(ExitWord::Nothing),
    }
}

fn entry_word(alloc: Global, what: &Horizontal) -> Result<EntryWord, Memory>
    ensures { IfOk result (λ word. word ≡ entry_word what.now) }
{
    match what {
        Horizontal::BoardAvailable(board) => Ok(EntryWord::Available(board.copy(alloc)?)),
        Horizontal::RevokeBoardAvailable => Ok(EntryWord::Revoked),
        Horizontal::TransportFinished { state, id } => Ok(EntryWord::Finished(*state, *id)),
        _ => Ok(EntryWord::Nothing),
    }
}

/// The kind of a message that is let go.
fn kind_of(message: Message) -> Kind
    ensures { result ≡ kind_of message.body }
{
    message.body.what().kind()
}

impl Body {
    /// There is no row for a message of this kind.
    fn break_off(
        &mut self,
        desk: &Desk,
        side: Side,
        kind: Kind,
        to: &mut Outputs,
    ) -> Result<(), Memory>
        requires { is_open side self.old ≡ true }
        ensures body { OnOk result (self.new ≡ (breaches desk.now side (unexpected kind) self.old).body) }
        ensures acts { OnOk result
            (to.new ≡ to.old ++ (breaches desk.now side (unexpected kind) self.old).acts) }
    {
        let breach = Breach { kind };
        let text = Text::plain(desk.alloc(), breach.text().as_bytes())?;
        self.breach(desk, side, text, to)
    }

    /// The outlet meets what a message says.
    #[inline(always)]
    fn exit_meets(
        &mut self,
        desk: &Desk,
        input: OutInput,
        message: Message,
        to: &mut Outputs,
    ) -> Result<(), Memory>
        requires open { is_open Exit self.old ≡ true }
        requires given { IsGiven self.old.outlet input }
        ensures body { OnOk result
            (self.new
            ≡ (passed desk.now Exit message self.old (at_exit desk.now input self.old)).body) }
        ensures acts { OnOk result
            (to.new ≡ to.old
            ++ (passed desk.now Exit message self.old (at_exit desk.now input self.old)).acts) }
    {
        match self.outlet.apply(input) {
            Ok(act) => {
                to.push(Act::Hears(Side::Exit, message))?;
                self.follow_out(desk, act, to)
            }
            Err(_) => self.break_off(desk, Side::Exit, kind_of(message), to),
        }
    }

    /// A start is heard: where it opens, it takes the front record along.
    fn exit_starts(
        &mut self,
        desk: &Desk,
        id: BoardId,
        message: Message,
        to: &mut Outputs,
    ) -> Result<(), Memory>
        requires open { is_open Exit self.old ≡ true }
        requires offers { OffersFront self.old }
        ensures body { OnOk result
            (self.new
            ≡ (passed desk.now Exit message self.old
            (start_took desk.now id (would_open self.old.outlet id) self.old)).body) }
        ensures acts { OnOk result
            (to.new ≡ to.old
            ++ (passed desk.now Exit message self.old
            (start_took desk.now id (would_open self.old.outlet id) self.old)).acts) }
    {
        if !self.outlet.would_open(id) {
            return self.exit_meets(desk, OutInput::Start { id, board: None }, message, to);
        }
        let board = self.kept.pop_front();
        self.exit_meets(desk, OutInput::Start { id, board }, message, to)
    }

    /// The exit hears a message that its session passes on.
    fn exit_hears(
        &mut self,
        desk: &Desk,
        word: ExitWord,
        message: Message,
        to: &mut Outputs,
    ) -> Result<(), Memory>
        requires open { is_open Exit self.old ≡ true }
        requires offers { OffersFront self.old }
        ensures body { OnOk result
            (self.new
            ≡ (passed desk.now Exit message self.old (exit_took desk.now word self.old)).body) }
        ensures acts { OnOk result
            (to.new ≡ to.old
            ++ (passed desk.now Exit message self.old (exit_took desk.now word self.old)).acts) }
    {
        match word {
            ExitWord::Ready => self.exit_meets(desk, OutInput::MachineReady, message, to),
            ExitWord::Unready => self.exit_meets(desk, OutInput::RevokeMachineReady, message, to),
            ExitWord::Start(id) => self.exit_starts(desk, id, message, to),
            ExitWord::Stop(state, id) => {
                self.exit_meets(desk, OutInput::Stop { state, id }, message, to)
            }
            ExitWord::Query(top, bottom) => {
                to.push(Act::Hears(Side::Exit, message))?;
                self.answer(desk, top, bottom, to)
            }
            ExitWord::Nothing => to.push(Act::Hears(Side::Exit, message)),
        }
    }

    /// The intake meets what a message says.
    #[inline(always)]
    fn entry_meets(
        &mut self,
        desk: &Desk,
        input: InInput,
        message: Message,
        to: &mut Outputs,
    ) -> Result<(), Memory>
        requires open { is_open Entry self.old ≡ true }
        requires given { IsGivenIn self.old.intake input }
        ensures body { OnOk result
            (self.new
            ≡ (passed desk.now Entry message self.old (at_entry desk.now input self.old)).body) }
        ensures acts { OnOk result
            (to.new ≡ to.old
            ++ (passed desk.now Entry message self.old (at_entry desk.now input self.old)).acts) }
    {
        match self.intake.apply(input) {
            Ok(act) => {
                to.push(Act::Hears(Side::Entry, message))?;
                self.follow_in(desk, act, to)
            }
            Err(_) => self.break_off(desk, Side::Entry, kind_of(message), to),
        }
    }

    /// The entry hears a message that its session passes on.
    fn entry_hears(
        &mut self,
        desk: &Desk,
        word: EntryWord,
        message: Message,
        to: &mut Outputs,
    ) -> Result<(), Memory>
        requires open { is_open Entry self.old ≡ true }
        ensures body { OnOk result
            (self.new
            ≡ (passed desk.now Entry message self.old (entry_took desk.now word self.old)).body) }
        ensures acts { OnOk result
            (to.new ≡ to.old
            ++ (passed desk.now Entry message self.old (entry_took desk.now word self.old)).acts) }
    {
        match word {
            EntryWord::Available(board) => {
                self.entry_meets(desk, InInput::BoardAvailable(board), message, to)
            }
            EntryWord::Revoked => self.entry_meets(
                desk,
                InInput::RevokeBoardAvailable,
                message,
                to,
            ),
            EntryWord::Finished(state, id) => {
                self.entry_meets(desk, InInput::Finished { state, id }, message, to)
            }
            EntryWord::Nothing => to.push(Act::Hears(Side::Entry, message)),
        }
    }

    #[inline(always)]
    fn side_hears(
        &mut self,
        desk: &Desk,
        side: Side,
        what: Said,
        message: Message,
        to: &mut Outputs,
    ) -> Result<(), Memory>
        requires open { is_open side self.old ≡ true }
        requires offers { OffersFront self.old }
        ensures body { OnOk result
            (self.new
            ≡ (passed desk.now side message self.old (side_took desk.now side what self.old)).body) }
        ensures acts { OnOk result
            (to.new ≡ to.old
            ++ (passed desk.now side message self.old
            (side_took desk.now side what self.old)).acts) }
    {
        match side {
            Side::Entry => {
                let word = entry_word(desk.alloc(), what.what())?;
                self.entry_hears(desk, word, message, to)
            }
            Side::Exit => {
                let word = exit_word(desk.alloc(), what.what())?;
                self.exit_hears(desk, word, message, to)
            }
        }
    }

    /// The session of a side took a message.
    fn take(
        &mut self,
        desk: &Desk,
        side: Side,
        message: Message,
        actions: Actions,
        to: &mut Outputs,
    ) -> Result<(), Memory>
        requires open { pass_open actions.first (session_at side self.old).state ≡ true }
        requires offers { OffersFront self.old }
        ensures body { OnOk result
            (self.new ≡ (taken desk.now side message actions.first actions self.old).body) }
        ensures acts { OnOk result
            (to.new ≡ to.old ++ (taken desk.now side message actions.first actions self.old).acts) }
    {
        let Actions {
            first,
            second,
            third,
        } = actions;
        match first {
            Some(Action::Pass(what)) => self.side_hears(desk, side, what, message, to),
            first => {
                to.push(Act::Hears(side, message))?;
                self.act_all(
                    desk,
                    side,
                    Actions {
                        first,
                        second,
                        third,
                    },
                    to,
                )
            }
        }
    }

    /// A side hears a message.
    #[tactic(auto, using(crate::proofs::Rowing::hears_row, crate::proofs::Rowing::hears_none))]
    pub(crate) fn hear(
        &mut self,
        desk: &Desk,
        side: Side,
        message: Message,
        to: &mut Outputs,
    ) -> Result<(), Memory>
        requires open { is_open side self.old ≡ true }
        requires offers { OffersFront self.old }
        ensures body { OnOk result (self.new ≡ (hears desk.now side message self.old).body) }
        ensures acts { OnOk result (to.new ≡ to.old ++ (hears desk.now side message self.old).acts) }
    {
        let what = message.body.copy()?;
        match self.session_hears(side, what) {
            Ok(actions) => self.take(desk, side, message, actions, to),
            Err(_) => self.break_off(desk, side, kind_of(message), to),
        }
    }
}
