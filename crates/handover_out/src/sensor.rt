ghost use Rattle.std.specs.Prelude.{◌≡◌};
ghost use Rattle.handover_out.specs.Row.{begun_row, left_row, back_row, taken_row, sensed_row, fault_row, over_when_stuck, row};

use crate::act::{OutAct, OutSend, finished};
use crate::phase::Phase;
use crate::state::State;
use board_record::BoardId;
use line_base::{SensorEvent, Transfer};
use std::mem;

impl State {
    #[inline(never)]
    pub(crate) fn sense(&mut self, event: SensorEvent) -> OutAct
        ensures { sensed_row event self.old ≡ row self.new result }
    {
        match event {
            SensorEvent::Begun => self.sense_begun(),
            SensorEvent::Left => self.sense_left(),
            SensorEvent::Full => OutAct::nothing(),
            SensorEvent::Back => self.sense_back(),
            SensorEvent::Taken => self.sense_taken(),
        }
    }

    fn sense_begun(&mut self) -> OutAct
        ensures { begun_row self.old.phase self.old ≡ row self.new result }
    {
        if let Phase::Moving { begun, .. } = &mut self.phase {
            *begun = true;
        }
        OutAct::nothing()
    }

    #[inline(never)]
    fn sense_left(&mut self) -> OutAct
        ensures { left_row self.old.phase self.old ≡ row self.new result }
    {
        match mem::replace(&mut self.phase, Phase::Idle) {
            Phase::Moving { board, .. } => {
                let told = finished(true, Transfer::Complete, board.id);
                self.enter(Phase::Ended { id: board.id });
                OutAct::leaves(board, told, Some(false))
            }
            Phase::Stuck {
                board,
                linked,
                stopped,
            } => {
                self.end(board.id, linked, stopped);
                let told = finished(linked, Transfer::Complete, board.id);
                OutAct::leaves(board, told, None)
            }
            phase => {
                self.enter(phase);
                OutAct::nothing()
            }
        }
    }

    #[inline(never)]
    fn sense_back(&mut self) -> OutAct
        ensures { back_row self.old.phase self.old ≡ row self.new result }
    {
        match mem::replace(&mut self.phase, Phase::Idle) {
            Phase::Moving { board, .. } => {
                self.enter(Phase::Moving {
                    board,
                    begun: false,
                });
                OutAct::nothing()
            }
            Phase::Stuck {
                board,
                linked,
                stopped,
            } => {
                self.end(board.id, linked, stopped);
                let told = finished(linked, Transfer::NotStarted, board.id);
                OutAct::returns(board, told, None)
            }
            phase => {
                self.enter(phase);
                OutAct::nothing()
            }
        }
    }

    #[inline(never)]
    fn sense_taken(&mut self) -> OutAct
        ensures { taken_row self.old.phase self.old ≡ row self.new result }
    {
        match mem::replace(&mut self.phase, Phase::Idle) {
            Phase::Moving { board, begun: true } => {
                let told = finished(true, Transfer::Incomplete, board.id);
                self.enter(Phase::Ended { id: board.id });
                OutAct::loses(board, told, Some(false))
            }
            Phase::Stuck {
                board,
                linked,
                stopped,
            } => {
                self.end(board.id, linked, stopped);
                let told = finished(linked, Transfer::Incomplete, board.id);
                OutAct::loses(board, told, None)
            }
            phase => {
                self.enter(phase);
                OutAct::nothing()
            }
        }
    }

    /// The board that was stuck is there no more.
    fn end(&mut self, id: BoardId, linked: bool, stopped: bool)
        ensures { self.new ≡ over_when_stuck self.old id linked stopped }
    {
        if linked && !stopped {
            self.enter(Phase::Ended { id });
        } else {
            self.enter(Phase::Idle);
            self.touched = None;
        }
    }

    #[inline(never)]
    pub(crate) fn fault(&mut self) -> OutAct
        ensures { fault_row self.old.phase self.old ≡ row self.new result }
    {
        match mem::replace(&mut self.phase, Phase::Idle) {
            Phase::Moving { board, begun: true } => {
                self.enter(Phase::Stuck {
                    board,
                    linked: true,
                    stopped: false,
                });
                OutAct::drive_off()
            }
            Phase::Moving { board, .. } => {
                let told = finished(true, Transfer::NotStarted, board.id);
                self.enter(Phase::Ended { id: board.id });
                OutAct::returns(board, told, Some(false))
            }
            phase => {
                self.enter(phase);
                OutAct::nothing()
            }
        }
    }
}
