ghost use Rattle.std.specs.Prelude.{◌≡◌, IfOk, IfErr, OnErr, None};
ghost use Rattle.handover_in.specs.declared.phase.Phase.TheVariants.{Idle};
ghost use Rattle.handover_in.specs.State.{awaits_finish};
ghost use Rattle.handover_in.specs.Row.{finished_row, finishes_running, ends_stopped, stand_row, row};
ghost use Rattle.transfer_state.specs.Intake.{in_ends};

use crate::act::{InAct, stop};
use crate::breach::InBreach;
use crate::phase::Phase;
use crate::state::State;
use board_record::{BoardId, Record};
use line_base::{Seen, Transfer};
use std::mem;
use transfer_state::{InEnd, in_ends};

impl State {
    #[inline(never)]
    pub(crate) fn finish(&mut self, heard: Transfer, id: BoardId) -> Result<InAct, InBreach>
        ensures row { IfOk result
            (λ act. finished_row self.old.phase self.old heard id ≡ row self.new act) }
        ensures breach { IfErr result (λ why. (finished_row self.old.phase self.old heard id ≡ None)
            × (why ≡ InBreach.TransportFinished)) }
        ensures unchanged { OnErr result (self.new ≡ self.old) }
    {
        if !self.awaits_finish(id) {
            return Err(InBreach::TransportFinished);
        }
        match mem::replace(&mut self.phase, Phase::Idle) {
            Phase::Taking { board, own, .. } => Ok(self.finish_running(board, own, heard)),
            Phase::Stopped { board, own, .. } => Ok(self.end_stopped(board, own, heard)),
            phase => {
                self.enter(phase);
                Err(InBreach::TransportFinished)
            }
        }
    }

    fn finish_running(&mut self, board: Record, own: Seen, heard: Transfer) -> InAct
        requires { self.old.phase ≡ Idle }
        ensures { finishes_running heard self.old board own ≡ row self.new result }
    {
        if heard == Transfer::Complete {
            self.enter(Phase::Taking {
                board,
                own,
                heard: true,
            });
            return InAct::nothing();
        }
        let said = stop(&board, own);
        match in_ends(own, heard) {
            InEnd::Drop => InAct::drops(board, own, said, Some(false)),
            _ => {
                self.enter(Phase::Stopped {
                    board,
                    own,
                    heard: Some(heard),
                });
                InAct::stops(said)
            }
        }
    }

    /// The transport has stopped, and the upstream machine has said how it ended.
    pub(crate) fn end_stopped(&mut self, board: Record, own: Seen, heard: Transfer) -> InAct
        requires { self.old.phase ≡ Idle }
        ensures { ends_stopped (in_ends own heard) self.old board own heard ≡ row self.new result }
    {
        match in_ends(own, heard) {
            InEnd::Keep => InAct::settles(board, None, None),
            InEnd::Drop => InAct::drops(board, own, None, None),
            InEnd::Wait => {
                self.enter(Phase::Stopped {
                    board,
                    own,
                    heard: Some(heard),
                });
                InAct::nothing()
            }
        }
    }

    /// Whether the end of this board's handover is still to be heard.
    fn awaits_finish(&self, id: BoardId) -> bool
        ensures { result ≡ awaits_finish self.now.phase id }
    {
        match &self.phase {
            Phase::Taking { board, heard, .. } => !*heard && board.id == id,
            Phase::Stopped { board, heard, .. } => heard.is_none() && board.id == id,
            _ => false,
        }
    }

    /// A new connection stands: a board that is inside is the machine's.
    #[inline(never)]
    pub(crate) fn stand(&mut self) -> InAct
        ensures { stand_row self.old.phase self.old ≡ row self.new result }
    {
        match mem::replace(&mut self.phase, Phase::Idle) {
            Phase::Waiting {
                board,
                own: Seen::Complete,
                ..
            } => InAct::settles(board, None, None),
            phase => {
                self.enter(phase);
                InAct::nothing()
            }
        }
    }
}
