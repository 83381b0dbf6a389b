ghost use Rattle.std.specs.Prelude.{◌≡◌, IfOk, IfErr, OnErr, IsSome, None, Some, true, option_map};
ghost use Rattle.handover_in.specs.State.{at_rest, name_of_phase, held, own_of_phase, has_heard, may_connect};
ghost use Rattle.handover_in.specs.Row.{intake_row, row};
ghost use Rattle.handover_in.specs.Given.{IsGiven, breach_of};
ghost use Rattle.handover_in.specs.Together.{IsIntakeTogether};

use crate::act::InAct;
use crate::breach::InBreach;
use crate::input::InInput;
use crate::phase::{InPhase, Phase};
use crate::state::State;
use board_record::Record;
use line_base::Seen;
use std::marker::Model;

/// The downstream half of a handover.
///
/// It is seen as its phase, the record of the board that is offered, and whether the machine has
/// said that it is ready. What of these can stand together is its invariant.
#[derive(Debug, PartialEq, Eq, Drop)]
pub struct Intake {
    state: State,
}

impl Model for Intake {
    ghost use Rattle.handover_in.specs.State.{InState};
    ghost use Rattle.handover_in.specs.Together.{IsIntakeTogether};

    ghost Value = { InState };

    ghost view = { λ intake. intake.state };

    ghost invariant = { λ intake. IsIntakeTogether intake.state };

    ghost inverse = { λ value. record { state = value } };
}

impl Intake {
    /// No handover, no offer, and not ready.
    pub fn new() -> Intake
        ensures { result ≡ at_rest }
    {
        Intake {
            state: State::at_rest(),
        }
    }

    /// What stands together in every intake: it is ready only while no handover is open, and has
    /// an offer only where it takes offers; and its phase is one that comes up.
    ///
    /// It does nothing: a caller that knows that the intake is ready, and that a board is offered,
    /// knows behind it that `Unready` and `Start` have their row.
    #[tactic(auto, using(crate::proofs::Together::unready_given, crate::proofs::Together::start_given))]
    pub fn together(&self)
        ensures together { IsIntakeTogether self.now }
        ensures unready { self.now.ready ≡ true → IsGiven self.now InInput.Unready }
        ensures start { self.now.ready ≡ true → IsSome self.now.offer
            → IsGiven self.now InInput.Start }
    {
        let _state = &self.state;
    }

    /// Its phase, without the phase's parts.
    pub fn phase(&self) -> InPhase
        ensures { result ≡ name_of_phase self.now.phase }
    {
        let state = &self.state;
        match &state.phase {
            Phase::Idle => InPhase::Idle,
            Phase::Taking { .. } => InPhase::Taking,
            Phase::Stopped { .. } => InPhase::Stopped,
            Phase::Waiting { .. } => InPhase::Waiting,
        }
    }

    /// The record of the board whose handover is open.
    pub fn holds(&self) -> Option<&Record>
        ensures { option_map (λ board. board.now) result ≡ held self.now }
    {
        let state = &self.state;
        match &state.phase {
            Phase::Idle => None,
            Phase::Taking { board, .. } => Some(board),
            Phase::Stopped { board, .. } => Some(board),
            Phase::Waiting { board, .. } => Some(board),
        }
    }

    /// The record of the board that is offered.
    pub fn offer(&self) -> Option<&Record>
        ensures { option_map (λ board. board.now) result ≡ self.now.offer }
    {
        let state = &self.state;
        state.offer.as_ref()
    }

    /// Whether the machine has said that it is ready.
    pub fn ready(&self) -> bool
        ensures { result ≡ self.now.ready }
    {
        let state = &self.state;
        state.ready
    }

    /// What its sensors saw of the board whose handover is open.
    pub fn own(&self) -> Option<Seen>
        ensures { result ≡ own_of_phase self.now.phase }
    {
        let state = &self.state;
        match &state.phase {
            Phase::Idle => None,
            Phase::Taking { own, .. } => Some(*own),
            Phase::Stopped { own, .. } => Some(*own),
            Phase::Waiting { own, .. } => Some(*own),
        }
    }

    /// Whether the upstream machine was heard. While the transport runs, and beyond a close, that
    /// it said that the board has left; once the transport has stopped, that it said how the
    /// handover ended.
    pub fn heard(&self) -> bool
        ensures { result ≡ has_heard self.now.phase }
    {
        let state = &self.state;
        match &state.phase {
            Phase::Idle => false,
            Phase::Taking { heard, .. } => *heard,
            Phase::Stopped { heard, .. } => heard.is_some(),
            Phase::Waiting { heard, .. } => *heard,
        }
    }

    /// Whether a new connection may be opened: no handover is open, or the connection of the open
    /// one is closed and its board is inside.
    pub fn may_connect(&self) -> bool
        ensures { result ≡ may_connect self.now.phase }
    {
        let state = &self.state;
        match &state.phase {
            Phase::Idle => true,
            Phase::Waiting { own, .. } => *own == Seen::Complete,
            _ => false,
        }
    }

    /// Does what the intake table says of this input, and answers the acts. A breach exactly
    /// where the table has no row for the message; the intake is then unchanged.
    ///
    /// `Ready`, `Unready` and `Start` are given only where the table has a row for them.
    #[inline(always)]
    pub fn apply(&mut self, input: InInput) -> Result<InAct, InBreach>
        requires { IsGiven self.old input }
        ensures row { IfOk result (λ act. intake_row self.old input ≡ row self.new act) }
        ensures breach { IfErr result (λ why. (intake_row self.old input ≡ None)
            × (breach_of input ≡ Some why)) }
        ensures unchanged { OnErr result (self.new ≡ self.old) }
    {
        self.state.meet(input)
    }
}
