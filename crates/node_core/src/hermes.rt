ghost use Rattle.std.specs.Prelude.{◌≡◌};
ghost use Rattle.node_core.specs.Hermes.{free_state, outlet_state, intake_state, hermes_state};

use crate::lane::Body;
use handover_in::InPhase;
use handover_out::OutPhase;
use line_base::Side;
use session_core::SessionState;

/// How one side of a machine stands, in the standard's words.
#[derive(Clone, Copy, Debug, PartialEq, Eq)]
pub enum HermesState {
    NotConnected,
    ServiceDescription,
    NotAvailableNotReady,
    BoardAvailable,
    MachineReady,
    AvailableAndReady,
    Transporting,
    TransportStopped,
    TransportFinished,
}

/// By whether a board is offered, and whether there is a place for it.
fn free_state(offered: bool, ready: bool) -> HermesState
    ensures { result ≡ free_state offered ready }
{
    match (offered, ready) {
        (false, false) => HermesState::NotAvailableNotReady,
        (true, false) => HermesState::BoardAvailable,
        (false, true) => HermesState::MachineReady,
        (true, true) => HermesState::AvailableAndReady,
    }
}

fn outlet_state(phase: OutPhase, stopped: bool, offered: bool, ready: bool) -> HermesState
    ensures { result ≡ outlet_state phase stopped offered ready }
{
    match (phase, stopped) {
        (OutPhase::Moving, _) => HermesState::Transporting,
        (OutPhase::Stuck, false) => HermesState::Transporting,
        (OutPhase::Stuck, true) => HermesState::TransportStopped,
        (OutPhase::Ended, _) => HermesState::TransportFinished,
        (OutPhase::Idle, _) => free_state(offered, ready),
    }
}

fn intake_state(phase: InPhase, heard: bool, offer: bool, ready: bool) -> HermesState
    ensures { result ≡ intake_state phase heard offer ready }
{
    match (phase, heard) {
        (InPhase::Taking, false) => HermesState::Transporting,
        (InPhase::Stopped, false) => HermesState::TransportStopped,
        (InPhase::Taking, true) => HermesState::TransportFinished,
        (InPhase::Stopped, true) => free_state(offer, ready),
        (InPhase::Waiting, _) => free_state(offer, ready),
        (InPhase::Idle, _) => free_state(offer, ready),
    }
}

impl Body {
    /// How a side stands: the first row of the standard's table that fits.
    pub(crate) fn state(&self, side: Side) -> HermesState
        ensures { result ≡ hermes_state side self.now }
    {
        match side {
            Side::Entry => match self.entry.session.state() {
                SessionState::NotConnected => HermesState::NotConnected,
                SessionState::Handshake => HermesState::ServiceDescription,
                SessionState::Standing => intake_state(
                    self.intake.phase(),
                    self.intake.heard(),
                    self.intake.offer().is_some(),
                    self.intake.ready(),
                ),
            },
            Side::Exit => match self.exit.session.state() {
                SessionState::NotConnected => HermesState::NotConnected,
                SessionState::Handshake => HermesState::ServiceDescription,
                SessionState::Standing => outlet_state(
                    self.outlet.phase(),
                    self.outlet.stopped(),
                    self.outlet.offered().is_some(),
                    self.outlet.ready(),
                ),
            },
        }
    }
}
