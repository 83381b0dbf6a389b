ghost use Rattle.std.specs.Prelude.{◌≡◌};
ghost use Rattle.handover_in.specs.Row.{closed_row, closes_stopped, row};
ghost use Rattle.handover_in.specs.State.{at_rest};

use crate::act::InAct;
use crate::phase::Phase;
use crate::state::State;
use board_record::Record;
use line_base::{Seen, Transfer};
use std::mem;

impl State {
    #[inline(never)]
    pub(crate) fn close(&mut self) -> InAct
        ensures { closed_row self.old.phase ≡ row self.new result }
    {
        self.put_offer(None);
        self.ready = false;
        match mem::replace(&mut self.phase, Phase::Idle) {
            Phase::Idle => InAct::nothing(),
            Phase::Taking { board, own, heard } => self.close_taking(board, own, heard),
            Phase::Stopped { board, own, heard } => {
                self.close_stopped(board, own, heard == Some(Transfer::Complete))
            }
            Phase::Waiting { board, own, heard } => {
                self.enter(Phase::Waiting { board, own, heard });
                InAct::nothing()
            }
        }
    }

    fn close_taking(&mut self, board: Record, own: Seen, heard: bool) -> InAct
        requires { self.old ≡ at_rest }
        ensures { closed_row (Phase.Taking board own heard) ≡ row self.new result }
    {
        if own == Seen::NotStarted {
            return InAct::drops(board, own, None, Some(false));
        }
        self.enter(Phase::Waiting { board, own, heard });
        if heard {
            InAct::nothing()
        } else {
            InAct::drive_off()
        }
    }

    /// `left` is whether the upstream machine said that the board has left.
    fn close_stopped(&mut self, board: Record, own: Seen, left: bool) -> InAct
        requires { self.old ≡ at_rest }
        ensures { closes_stopped board own left ≡ row self.new result }
    {
        match own {
            Seen::NotStarted | Seen::Taken => InAct::drops(board, own, None, None),
            Seen::Incomplete | Seen::Complete => {
                self.enter(Phase::Waiting {
                    board,
                    own,
                    heard: left,
                });
                InAct::nothing()
            }
        }
    }
}
