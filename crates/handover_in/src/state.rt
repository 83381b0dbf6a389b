ghost use Rattle.std.specs.Prelude.{◌≡◌, IfOk, IfErr, OnErr, None, Some};
ghost use Rattle.handover_in.specs.State.{at_rest};
ghost use Rattle.handover_in.specs.Row.{intake_row, row};
ghost use Rattle.handover_in.specs.Given.{IsGiven, breach_of};

use crate::act::InAct;
use crate::breach::InBreach;
use crate::input::InInput;
use crate::phase::Phase;
use board_record::Record;
use std::marker::Model;

/// How an intake stands, on which the rows of the intake table are done: its phase, the record of
/// the board that is offered, and whether the machine has said that it is ready.
///
/// It may be any combination of the three; `Intake` keeps those that stand together.
#[derive(Debug, PartialEq, Eq, Drop)]
pub struct State {
    pub(crate) phase: Phase,
    pub(crate) offer: Option<Record>,
    pub(crate) ready: bool,
}

impl Model for State {
    ghost use Rattle.handover_in.specs.State.{InState};

    ghost Value = { InState };

    ghost view = { λ state. record { phase = state.phase; offer = state.offer; ready = state.ready } };

    ghost inverse = { λ value. record { phase = value.phase; offer = value.offer; ready = value.ready } };
}

impl State {
    pub(crate) fn at_rest() -> State
        ensures { result ≡ at_rest }
    {
        State {
            phase: Phase::Idle,
            offer: None,
            ready: false,
        }
    }

    /// Goes over into a phase. The phase before is let go here alone, since each place that lets one go
    /// is dear to prove.
    pub(crate) fn enter(&mut self, phase: Phase)
        ensures { self.new ≡ record self.old { phase = phase } }
    {
        self.phase = phase;
    }

    /// Keeps the record of a board that is offered, or none.
    #[inline(always)]
    pub(crate) fn put_offer(&mut self, offer: Option<Record>)
        ensures { self.new ≡ record self.old { offer = offer } }
    {
        self.offer = offer;
    }

    /// Does what the intake table says of this input.
    // Inlined, it comes down to the row of an input that is known, and the input isn't moved. The rows
    // that move records are not, but for an offer, which is heard in one place: each would clear room
    // for its records wherever this is.
    #[inline(always)]
    pub(crate) fn meet(&mut self, input: InInput) -> Result<InAct, InBreach>
        requires { IsGiven self.old input }
        ensures row { IfOk result (λ act. intake_row self.old input ≡ row self.new act) }
        ensures breach { IfErr result (λ why. (intake_row self.old input ≡ None)
            × (breach_of input ≡ Some why)) }
        ensures unchanged { OnErr result (self.new ≡ self.old) }
    {
        let act = match input {
            InInput::Ready => self.get_ready(),
            InInput::Unready => self.get_unready(),
            InInput::Start => self.start(),
            InInput::BoardAvailable(board) => return self.board_available(board),
            InInput::RevokeBoardAvailable => return self.revoke_board_available(),
            InInput::Finished { state, id } => return self.finish(state, id),
            InInput::Sensed(event) => self.sense(event),
            InInput::Fault => self.fault(),
            InInput::Closed => self.close(),
            InInput::Stand => self.stand(),
        };
        Ok(act)
    }
}
