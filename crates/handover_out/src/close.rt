ghost use Rattle.std.specs.Prelude.{◌≡◌, false};
ghost use Rattle.handover_out.specs.Row.{closed_row, row};

use crate::act::OutAct;
use crate::phase::Phase;
use crate::state::State;
use board_record::Record;
use std::mem;

impl State {
    #[inline(never)]
    pub(crate) fn close(&mut self) -> OutAct
        ensures { closed_row self.old.phase ≡ row self.new result }
    {
        self.offered = None;
        self.touched = None;
        self.ready = false;
        match mem::replace(&mut self.phase, Phase::Idle) {
            Phase::Moving { board, begun: true } => {
                self.enter(stuck_unlinked(board));
                OutAct::drive_off()
            }
            Phase::Moving { board, .. } => OutAct::returns(board, None, Some(false)),
            Phase::Stuck { board, .. } => {
                self.enter(stuck_unlinked(board));
                OutAct::nothing()
            }
            _ => OutAct::nothing(),
        }
    }
}

fn stuck_unlinked(board: Record) -> Phase
    ensures { result ≡ Phase.Stuck board false false }
{
    Phase::Stuck {
        board,
        linked: false,
        stopped: false,
    }
}
