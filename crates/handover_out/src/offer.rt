ghost use Rattle.std.specs.Prelude.{◌≡◌, IfOk, IfErr, OnErr, None};
ghost use Rattle.handover_out.specs.Given.{IsGiven};
ghost use Rattle.handover_out.specs.Row.{offer_row, revoke_row, machine_ready_row, revoke_machine_ready_row, row};

use crate::act::{OutAct, OutSend};
use crate::breach::OutBreach;
use crate::input::OutInput;
use crate::phase::Phase;
use crate::state::State;
use board_record::BoardId;

impl State {
    pub(crate) fn offer(&mut self, id: BoardId) -> OutAct
        requires { IsGiven self.old (OutInput.Offer id) }
        ensures { offer_row self.old.phase self.old id ≡ row self.new result }
    {
        self.offered = Some(id);
        self.touched = Some(id);
        OutAct::sends(OutSend::BoardAvailable)
    }

    pub(crate) fn revoke(&mut self) -> OutAct
        requires { IsGiven self.old OutInput.Revoke }
        ensures { revoke_row self.old.phase self.old ≡ row self.new result }
    {
        self.offered = None;
        OutAct::sends(OutSend::RevokeBoardAvailable)
    }

    pub(crate) fn machine_ready(&mut self) -> Result<OutAct, OutBreach>
        ensures row { IfOk result (λ act. machine_ready_row self.old.phase self.old ≡ row self.new act) }
        ensures breach { IfErr result (λ why. (machine_ready_row self.old.phase self.old ≡ None)
            × (why ≡ OutBreach.MachineReady)) }
        ensures unchanged { OnErr result (self.new ≡ self.old) }
    {
        match self.phase {
            Phase::Idle if !self.ready => {
                self.ready = true;
                Ok(OutAct::nothing())
            }
            _ => Err(OutBreach::MachineReady),
        }
    }

    pub(crate) fn revoke_machine_ready(&mut self) -> Result<OutAct, OutBreach>
        ensures row { IfOk result
            (λ act. revoke_machine_ready_row self.old.phase self.old ≡ row self.new act) }
        ensures breach { IfErr result (λ why. (revoke_machine_ready_row self.old.phase self.old ≡ None)
            × (why ≡ OutBreach.RevokeMachineReady)) }
        ensures unchanged { OnErr result (self.new ≡ self.old) }
    {
        match self.phase {
            Phase::Idle if self.ready => {
                self.ready = false;
                Ok(OutAct::nothing())
            }
            _ => Err(OutBreach::RevokeMachineReady),
        }
    }
}
