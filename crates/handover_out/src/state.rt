ghost use Rattle.std.specs.Prelude.{◌≡◌, IfOk, IfErr, OnErr, None, Some};
ghost use Rattle.handover_out.specs.State.{at_rest, is_idle_phase};
ghost use Rattle.handover_out.specs.Row.{outlet_row, row};
ghost use Rattle.handover_out.specs.Given.{IsGiven, breach_of};

use crate::act::OutAct;
use crate::breach::OutBreach;
use crate::input::OutInput;
use crate::phase::Phase;
use board_record::BoardId;
use std::marker::Model;

/// How an outlet stands, on which the rows of the outlet table are done: its phase, the board that
/// is offered, the one last offered, and whether the downstream machine is ready.
///
/// It may be any combination of the four; `Outlet` keeps those that can stand together.
#[derive(Debug, PartialEq, Eq, Drop)]
pub(crate) struct State {
    pub(crate) phase: Phase,
    pub(crate) offered: Option<BoardId>,
    /// The board last offered, until an ended handover or a closed connection clears it.
    pub(crate) touched: Option<BoardId>,
    /// Whether the downstream machine said that it is ready.
    pub(crate) ready: bool,
}

impl Model for State {
    ghost use Rattle.handover_out.specs.State.{OutState};

    ghost Value = { OutState };

    ghost view = { λ state.
        record {
          phase = state.phase;
          offered = state.offered;
          touched = state.touched;
          ready = state.ready;
        } };

    ghost inverse = { λ value. record { phase = value.phase; offered = value.offered; touched = value.touched; ready = value.ready } };
}

impl State {
    /// No handover, and nothing offered.
    pub(crate) fn at_rest() -> State
        ensures { result ≡ at_rest }
    {
        State {
            phase: Phase::Idle,
            offered: None,
            touched: None,
            ready: false,
        }
    }

    /// Goes over into a phase. The phase before is let go here alone, since each place that lets one go
    /// is dear to prove.
    #[inline(always)]
    pub(crate) fn enter(&mut self, phase: Phase)
        ensures { self.new ≡ record self.old { phase = phase } }
    {
        self.phase = phase;
    }

    /// Does what the outlet table says of this input.
    // Inlined, it comes down to the row of an input that is known, and the input isn't moved. The rows
    // that move records are not, but for the start, which is asked for in one place: each would clear
    // room for its records wherever this is.
    #[inline(always)]
    pub(crate) fn meet(&mut self, input: OutInput) -> Result<OutAct, OutBreach>
        requires { IsGiven self.old input }
        ensures row { IfOk result (λ act. outlet_row self.old input ≡ row self.new act) }
        ensures breach { IfErr result (λ why. (outlet_row self.old input ≡ None)
            × (breach_of input ≡ Some why)) }
        ensures unchanged { OnErr result (self.new ≡ self.old) }
    {
        let act = match input {
            OutInput::Offer(id) => self.offer(id),
            OutInput::Revoke => self.revoke(),
            OutInput::MachineReady => return self.machine_ready(),
            OutInput::RevokeMachineReady => return self.revoke_machine_ready(),
            OutInput::Start { id, board } => return self.start(id, board),
            OutInput::Stop { id, .. } => return self.stop(id),
            OutInput::Sensed(event) => self.sense(event),
            OutInput::Fault => self.fault(),
            OutInput::Closed => self.close(),
        };
        Ok(act)
    }

    /// Whether no handover is under way.
    pub(crate) fn is_idle(&self) -> bool
        ensures { result ≡ is_idle_phase self.now.phase }
    {
        matches!(&self.phase, Phase::Idle)
    }
}
