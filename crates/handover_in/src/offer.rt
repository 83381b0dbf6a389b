ghost use Rattle.std.specs.Prelude.{◌≡◌, IfOk, IfErr, OnErr, None};
ghost use Rattle.handover_in.specs.State.{takes_offers, passes_offers_over};
ghost use Rattle.handover_in.specs.Given.{IsGiven};
ghost use Rattle.handover_in.specs.Row.{ready_row, unready_row, start_row, board_available_row, revoke_board_available_row, row};

use crate::act::{InAct, InSend};
use crate::breach::InBreach;
use crate::input::InInput;
use crate::phase::Phase;
use crate::state::State;
use board_record::Record;
use line_base::Seen;

impl State {
    pub(crate) fn get_ready(&mut self) -> InAct
        requires { IsGiven self.old InInput.Ready }
        ensures { ready_row self.old.phase self.old ≡ row self.new result }
    {
        self.ready = true;
        InAct::sends(InSend::MachineReady)
    }

    pub(crate) fn get_unready(&mut self) -> InAct
        requires { IsGiven self.old InInput.Unready }
        ensures { unready_row self.old.phase self.old ≡ row self.new result }
    {
        self.ready = false;
        InAct::sends(InSend::RevokeMachineReady)
    }

    #[inline(never)]
    pub(crate) fn start(&mut self) -> InAct
        requires { IsGiven self.old InInput.Start }
        ensures { start_row self.old.phase self.old.offer self.old.ready ≡ row self.new result }
    {
        self.ready = false;
        match self.offer.take() {
            Some(board) => {
                let id = board.id;
                self.enter(Phase::Taking {
                    board,
                    own: Seen::NotStarted,
                    heard: false,
                });
                InAct::starts(id)
            }
            None => InAct::nothing(),
        }
    }

    #[inline(always)]
    pub(crate) fn board_available(&mut self, board: Record) -> Result<InAct, InBreach>
        ensures row { IfOk result
            (λ act. board_available_row self.old.phase self.old board ≡ row self.new act) }
        ensures breach { IfErr result (λ why. (board_available_row self.old.phase self.old board ≡ None)
            × (why ≡ InBreach.BoardAvailable)) }
        ensures unchanged { OnErr result (self.new ≡ self.old) }
    {
        if self.passes_offers_over() {
            return Ok(InAct::nothing());
        }
        if !self.takes_offers() || self.offer.is_some() {
            return Err(InBreach::BoardAvailable);
        }
        self.put_offer(Some(board));
        Ok(InAct::nothing())
    }

    pub(crate) fn revoke_board_available(&mut self) -> Result<InAct, InBreach>
        ensures row { IfOk result
            (λ act. revoke_board_available_row self.old.phase self.old ≡ row self.new act) }
        ensures breach { IfErr result (λ why. (revoke_board_available_row self.old.phase self.old ≡ None)
            × (why ≡ InBreach.RevokeBoardAvailable)) }
        ensures unchanged { OnErr result (self.new ≡ self.old) }
    {
        if self.passes_offers_over() {
            return Ok(InAct::nothing());
        }
        if !self.takes_offers() || self.offer.is_none() {
            return Err(InBreach::RevokeBoardAvailable);
        }
        self.put_offer(None);
        Ok(InAct::nothing())
    }

    /// Whether offers are of a time before the upstream machine let the board of the open
    /// handover go.
    fn passes_offers_over(&self) -> bool
        ensures { result ≡ passes_offers_over self.now.phase }
    {
        match &self.phase {
            Phase::Taking { heard, .. } => !*heard,
            Phase::Stopped { heard, .. } => heard.is_none(),
            _ => false,
        }
    }

    fn takes_offers(&self) -> bool
        ensures { result ≡ takes_offers self.now.phase }
    {
        match &self.phase {
            Phase::Idle => true,
            Phase::Taking { heard, .. } => *heard,
            Phase::Stopped { heard, .. } => heard.is_some(),
            Phase::Waiting { .. } => false,
        }
    }
}
