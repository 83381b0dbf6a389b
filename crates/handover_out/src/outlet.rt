ghost use Rattle.std.specs.Prelude.{◌≡◌, IfOk, IfErr, OnErr, IsSome, None, Some, option_map};
ghost use Rattle.handover_out.specs.State.{at_rest, name_of_phase, held, is_stopped_phase, would_open};
ghost use Rattle.handover_out.specs.Together.{IsOutletTogether};
ghost use Rattle.handover_out.specs.Row.{outlet_row, row};
ghost use Rattle.handover_out.specs.Given.{IsGiven, breach_of};

use crate::act::OutAct;
use crate::breach::OutBreach;
use crate::input::OutInput;
use crate::phase::{OutPhase, Phase};
use crate::state::State;
use board_record::{BoardId, Record};
use std::marker::Model;

/// The upstream half of a handover.
///
/// It is seen as its phase, the board that is offered, the board last offered, and whether the
/// downstream machine is ready.
#[derive(Debug, PartialEq, Eq, Drop)]
pub struct Outlet {
    state: State,
}

impl Model for Outlet {
    ghost use Rattle.handover_out.specs.State.{OutState};
    ghost use Rattle.handover_out.specs.Together.{IsOutletTogether};

    ghost Value = { OutState };

    ghost view = { λ outlet. outlet.state };

    ghost invariant = { λ outlet. IsOutletTogether outlet.state };

    ghost inverse = { λ value. record { state = value } };
}

impl Outlet {
    /// No handover, and nothing offered.
    #[tactic(auto, using(crate::proofs::Together::new_together))]
    pub fn new() -> Outlet
        ensures { result ≡ at_rest }
    {
        Outlet {
            state: State::at_rest(),
        }
    }

    /// What stands together in every outlet: a board is offered, and the downstream machine is
    /// ready, only while no handover is open; and the board that is offered, or held while its
    /// connection stands, is the one last offered.
    ///
    /// It does nothing: a caller that knows that a board is offered knows behind it that `Revoke`
    /// has its row, whatever the phase.
    #[tactic(auto, using(crate::proofs::Together::revoke_given))]
    pub fn together(&self)
        ensures together { IsOutletTogether self.now }
        ensures revocable { IsSome self.now.offered → IsGiven self.now OutInput.Revoke }
    {
        let _state = &self.state;
    }

    /// Its phase, without the phase's parts.
    pub fn phase(&self) -> OutPhase
        ensures { result ≡ name_of_phase self.now.phase }
    {
        match &self.state.phase {
            Phase::Idle => OutPhase::Idle,
            Phase::Moving { .. } => OutPhase::Moving,
            Phase::Stuck { .. } => OutPhase::Stuck,
            Phase::Ended { .. } => OutPhase::Ended,
        }
    }

    /// The record of the board whose handover is open.
    pub fn holds(&self) -> Option<&Record>
        ensures { option_map (λ board. board.now) result ≡ held self.now }
    {
        match &self.state.phase {
            Phase::Moving { board, .. } => Some(board),
            Phase::Stuck { board, .. } => Some(board),
            _ => None,
        }
    }

    /// The board that is offered.
    pub fn offered(&self) -> Option<BoardId>
        ensures { result ≡ self.now.offered }
    {
        self.state.offered
    }

    /// The board last offered, until an ended handover or a closed connection clears it. Its
    /// record may be known downstream, so it must not change.
    pub fn touched(&self) -> Option<BoardId>
        ensures { result ≡ self.now.touched }
    {
        self.state.touched
    }

    /// Whether the downstream machine is ready for a board.
    pub fn ready(&self) -> bool
        ensures { result ≡ self.now.ready }
    {
        self.state.ready
    }

    /// Whether it is stuck and the downstream machine said its stop.
    pub fn stopped(&self) -> bool
        ensures { result ≡ is_stopped_phase self.now.phase }
    {
        matches!(&self.state.phase, Phase::Stuck { stopped: true, .. })
    }

    /// Whether a start for this board opens the outlet: it is idle, the downstream machine is
    /// ready, and this board is offered.
    pub fn would_open(&self, id: BoardId) -> bool
        ensures { result ≡ would_open self.now id }
    {
        self.state.is_idle() && self.state.ready && self.state.offered == Some(id)
    }

    /// Does what the outlet table says of this input, and answers the acts. A breach exactly
    /// where the table has no row for the message; the outlet is then unchanged.
    ///
    /// An offer or a revocation is given only where the table has a row for it. In `Start` the
    /// board is there exactly where `would_open` holds, and has that id.
    #[inline(always)]
    pub fn apply(&mut self, input: OutInput) -> Result<OutAct, OutBreach>
        requires { IsGiven self.old input }
        ensures row { IfOk result (λ act. outlet_row self.old input ≡ row self.new act) }
        ensures breach { IfErr result (λ why. (outlet_row self.old input ≡ None)
            × (breach_of input ≡ Some why)) }
        ensures unchanged { OnErr result (self.new ≡ self.old) }
    {
        self.state.meet(input)
    }
}
