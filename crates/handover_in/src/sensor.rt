ghost use Rattle.std.specs.Prelude.{◌≡◌};
ghost use Rattle.handover_in.specs.declared.phase.Phase.TheVariants.{Idle};
ghost use Rattle.handover_in.specs.Own.{own_after};
ghost use Rattle.handover_in.specs.Row.{taking_row, stopped_row, waiting_row, sensed_row, fault_row, complete_if, row};

use crate::act::{InAct, stop};
use crate::phase::Phase;
use crate::state::State;
use board_record::Record;
use line_base::{Seen, SensorEvent, Transfer};
use std::mem;

impl State {
    pub(crate) fn sense(&mut self, event: SensorEvent) -> InAct
        ensures { sensed_row self.old.phase self.old event ≡ row self.new result }
    {
        if event == SensorEvent::Begun {
            // its record stays where it is
            if let Phase::Taking { own, .. } = &mut self.phase {
                *own = own_after(*own, event);
                return InAct::nothing();
            }
        }
        self.sense_board(event)
    }

    #[inline(never)]
    fn sense_board(&mut self, event: SensorEvent) -> InAct
        ensures { sensed_row self.old.phase self.old event ≡ row self.new result }
    {
        if event == SensorEvent::Left {
            return InAct::nothing();
        }
        match mem::replace(&mut self.phase, Phase::Idle) {
            Phase::Idle => InAct::nothing(),
            Phase::Taking { board, own, heard } => self.sense_taking(board, own, heard, event),
            Phase::Stopped { board, own, heard } => {
                self.sense_stopped(board, own_after(own, event), heard)
            }
            Phase::Waiting { board, own, heard } => {
                self.sense_waiting(board, own_after(own, event), heard)
            }
        }
    }

    fn sense_taking(&mut self, board: Record, own: Seen, heard: bool, event: SensorEvent) -> InAct
        requires { self.old.phase ≡ Idle }
        ensures { taking_row self.old board own heard event ≡ row self.new result }
    {
        match (event, own) {
            (SensorEvent::Full, _) => self.come_in(board, heard),
            (SensorEvent::Taken, Seen::Incomplete) => self.be_taken(board, heard),
            _ => {
                self.enter(Phase::Taking {
                    board,
                    own: own_after(own, event),
                    heard,
                });
                InAct::nothing()
            }
        }
    }

    fn come_in(&mut self, board: Record, heard: bool) -> InAct
        requires { self.old.phase ≡ Idle }
        ensures { taking_row self.old board Seen.NotStarted heard SensorEvent.Full
            ≡ row self.new result }
    {
        let said = stop(&board, Seen::Complete);
        if heard {
            InAct::settles(board, said, Some(false))
        } else {
            self.enter(Phase::Stopped {
                board,
                own: Seen::Complete,
                heard: None,
            });
            InAct::stops(said)
        }
    }

    fn be_taken(&mut self, board: Record, heard: bool) -> InAct
        requires { self.old.phase ≡ Idle }
        ensures { taking_row self.old board Seen.Incomplete heard SensorEvent.Taken
            ≡ row self.new result }
    {
        let said = stop(&board, Seen::Taken);
        if heard {
            InAct::drops(board, Seen::Taken, said, Some(false))
        } else {
            self.enter(Phase::Stopped {
                board,
                own: Seen::Taken,
                heard: None,
            });
            InAct::stops(said)
        }
    }

    fn sense_stopped(&mut self, board: Record, own: Seen, heard: Option<Transfer>) -> InAct
        requires { self.old.phase ≡ Idle }
        ensures { stopped_row self.old board own heard ≡ row self.new result }
    {
        match heard {
            None => {
                self.enter(Phase::Stopped { board, own, heard });
                InAct::nothing()
            }
            Some(heard) => self.end_stopped(board, own, heard),
        }
    }

    fn sense_waiting(&mut self, board: Record, own: Seen, heard: bool) -> InAct
        requires { self.old.phase ≡ Idle }
        ensures { waiting_row self.old board own heard ≡ row self.new result }
    {
        match own {
            Seen::Complete if heard => InAct::settles(board, None, Some(false)),
            Seen::Complete => {
                self.enter(Phase::Waiting { board, own, heard });
                InAct::drive_off()
            }
            Seen::Incomplete => {
                self.enter(Phase::Waiting { board, own, heard });
                InAct::nothing()
            }
            Seen::NotStarted | Seen::Taken => InAct::drops(board, own, None, Some(false)),
        }
    }

    #[inline(never)]
    pub(crate) fn fault(&mut self) -> InAct
        ensures { fault_row self.old.phase self.old ≡ row self.new result }
    {
        match mem::replace(&mut self.phase, Phase::Idle) {
            Phase::Taking { board, own, heard } => {
                let said = stop(&board, own);
                self.enter(Phase::Stopped {
                    board,
                    own,
                    heard: complete_if(heard),
                });
                InAct::stops(said)
            }
            phase => {
                self.enter(phase);
                InAct::nothing()
            }
        }
    }
}

/// What the sensors at the entry have seen of a board after one event more.
pub fn own_after(own: Seen, event: SensorEvent) -> Seen
    ensures { result ≡ own_after own event }
{
    match (event, own) {
        (SensorEvent::Begun, Seen::NotStarted) => Seen::Incomplete,
        (SensorEvent::Full, _) => Seen::Complete,
        (SensorEvent::Back, _) => Seen::NotStarted,
        (SensorEvent::Taken, Seen::Incomplete) => Seen::Taken,
        _ => own,
    }
}

fn complete_if(heard: bool) -> Option<Transfer>
    ensures { result ≡ complete_if heard }
{
    if heard {
        Some(Transfer::Complete)
    } else {
        None
    }
}
