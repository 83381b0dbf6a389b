ghost use Rattle.std.specs.Prelude.{◌≡◌, ◌↔◌, IsTrue, IsSome, IfSome, IfOk, IfErr, OnErr, None, true};
ghost use Rattle.handover_out.specs.State.{awaits_stop, would_open};
ghost use Rattle.handover_out.specs.Row.{start_row, stop_row, row};

use crate::act::{OutAct, OutDeed, OutSend, finished};
use crate::breach::OutBreach;
use crate::phase::Phase;
use crate::state::State;
use board_record::{BoardId, Record};
use line_base::Transfer;
use std::mem;

impl State {
    #[inline(always)]
    pub(crate) fn start(&mut self, id: BoardId, board: Option<Record>) -> Result<OutAct, OutBreach>
        requires { IsSome board ↔ IsTrue (would_open self.old id) }
        ensures row { IfOk result (λ act. start_row self.old.phase self.old id board ≡ row self.new act) }
        ensures breach { IfErr result (λ why. (start_row self.old.phase self.old id board ≡ None)
            × (why ≡ OutBreach.StartTransport)) }
        ensures unchanged { OnErr result (self.new ≡ self.old) }
    {
        if !self.is_idle() || !self.ready {
            return Err(OutBreach::StartTransport);
        }
        self.offered = None;
        self.ready = false;
        match board {
            Some(board) => {
                let id = board.id;
                self.enter(Phase::Moving {
                    board,
                    begun: false,
                });
                Ok(OutAct {
                    deed: Some(OutDeed::Opens(id)),
                    send: None,
                    drive: Some(true),
                    back: None,
                })
            }
            None => {
                self.enter(Phase::Ended { id });
                Ok(OutAct {
                    deed: Some(OutDeed::Refuses(id)),
                    send: Some(OutSend::Finished {
                        state: Transfer::NotStarted,
                        id,
                    }),
                    drive: None,
                    back: None,
                })
            }
        }
    }

    #[inline(never)]
    pub(crate) fn stop(&mut self, id: BoardId) -> Result<OutAct, OutBreach>
        ensures row { IfOk result (λ act. stop_row self.old.phase self.old id ≡ row self.new act) }
        ensures breach { IfErr result (λ why. (stop_row self.old.phase self.old id ≡ None)
            × (why ≡ OutBreach.StopTransport)) }
        ensures unchanged { OnErr result (self.new ≡ self.old) }
    {
        if !self.awaits_stop(id) {
            return Err(OutBreach::StopTransport);
        }
        if let Phase::Ended { .. } = &self.phase {
            self.enter(Phase::Idle);
            self.touched = None;
            return Ok(OutAct::nothing());
        }
        match mem::replace(&mut self.phase, Phase::Idle) {
            Phase::Moving {
                board,
                begun: false,
            } => {
                self.touched = None;
                let told = finished(true, Transfer::NotStarted, id);
                Ok(OutAct::returns(board, told, Some(false)))
            }
            Phase::Moving { board, .. } => {
                self.enter(stopped(board));
                Ok(OutAct::drive_off())
            }
            Phase::Stuck { board, .. } => {
                self.enter(stopped(board));
                Ok(OutAct::nothing())
            }
            Phase::Ended { .. } | Phase::Idle => unreachable!(),
        }
    }

    /// Whether the stop of this board's transport is still to come.
    fn awaits_stop(&self, id: BoardId) -> bool
        ensures { result ≡ awaits_stop self.now.phase id }
    {
        match &self.phase {
            Phase::Moving { board, .. } => board.id == id,
            Phase::Stuck {
                board,
                linked,
                stopped,
            } => *linked && !*stopped && board.id == id,
            Phase::Ended { id: mine } => *mine == id,
            Phase::Idle => false,
        }
    }
}

fn stopped(board: Record) -> Phase
    ensures { result ≡ Phase.Stuck board true true }
{
    Phase::Stuck {
        board,
        linked: true,
        stopped: true,
    }
}
