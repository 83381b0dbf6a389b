ghost use Rattle.std.specs.Prelude.{◌≡◌, ◌<◌, ◌++◌, ◌∷◌, [], IfNone, IfOk, IfSome, OnOk, OnErr, drop, is_some, length, slice_get};
ghost use Rattle.std.specs.Bool.{OnTrue};
ghost use Rattle.line_world.specs.FloorPlan.{board_found, empty_machine, place_of, with_new_id, without_board};
ghost use Rattle.line_world.specs.Boards.{ChangesId, LosesBoard};

use crate::board::Board;
use crate::sensors::Sensors;
use board_record::{BoardId, Sensed};
use line_base::Memory;
use std::alloc::Global;
use std::marker::Model;

/// What is at a machine: its boards, the front one at the exit, and the sensor events that it
/// hasn't read, the oldest first.
#[derive(Debug, Drop)]
pub struct Station {
    pub(crate) boards: Vec<Board>,
    pub(crate) unread: Vec<Sensed>,
}

impl Model for Station {
    ghost use Rattle.line_world.specs.FloorPlan.{AtMachine};

    ghost Value = { AtMachine };

    ghost view = { λ station. record { boards = station.boards.items; unread = station.unread.items } };
}

impl Station {
    /// A machine's place with nothing there.
    pub fn new(alloc: Global) -> Station
        ensures { result ≡ empty_machine }
    {
        Station {
            boards: Vec::new(alloc),
            unread: Vec::new(alloc),
        }
    }

    /// Its boards, the front one first.
    pub fn boards(&self) -> &[Board]
        ensures { result.now ≡ self.now.boards }
    {
        self.boards.as_slice()
    }

    /// The events that it hasn't read.
    pub fn unread(&self) -> &[Sensed]
        ensures { result.now ≡ self.now.unread }
    {
        self.unread.as_slice()
    }

    /// Puts a board at the back.
    pub fn place(&mut self, board: Board) -> Result<(), Memory>
        ensures ok { OnOk result (self.new ≡ record self.old { boards = self.old.boards ++ board ∷ [] }) }
        ensures memory { OnErr result (self.new ≡ self.old) }
        ensures gained { OnOk result (LosesBoard self.new.boards self.old.boards board) }
    {
        match self.boards.push(Board { id: board.id }) {
            Ok(()) => Ok(()),
            Err(_) => Err(Memory),
        }
    }

    /// Adds an event to read.
    pub fn tell(&mut self, sensed: Sensed) -> Result<(), Memory>
        ensures ok { OnOk result
            (self.new ≡ record self.old { unread = self.old.unread ++ sensed ∷ [] }) }
        ensures memory { OnErr result (self.new ≡ self.old) }
        ensures boards { self.new.boards ≡ self.old.boards }
    {
        match self.unread.push(sensed) {
            Ok(()) => Ok(()),
            Err(_) => Err(Memory),
        }
    }

    /// Gives out the events that it hasn't read, which are read then.
    pub fn read_all(&mut self, alloc: Global) -> Result<Sensors, Memory>
        ensures events { IfOk result (λ events. events ≡ self.old.unread) }
        ensures ok { OnOk result (self.new ≡ record self.old { unread = [] }) }
        ensures memory { OnErr result (self.new ≡ self.old) }
        ensures boards { self.new.boards ≡ self.old.boards }
    {
        let events = Sensors::of(alloc, &self.unread)?;
        self.unread.clear();
        Ok(events)
    }

    /// The place of the first board with an id.
    pub fn place_of(&self, id: BoardId) -> Option<usize>
        ensures { result ≡ place_of id self.now.boards }
    {
        place_of(&self.boards, id)
    }

    /// Takes out the first board with an id.
    pub fn remove(&mut self, id: BoardId) -> Option<Board>
        ensures taken { result ≡ board_found id self.old.boards }
        ensures left { self.new ≡ record self.old { boards = without_board id self.old.boards } }
        ensures lost { IfSome result (LosesBoard self.old.boards self.new.boards) }
        ensures none { IfNone result (self.new.boards ≡ self.old.boards) }
    {
        match place_of(&self.boards, id) {
            Some(place) => Some(self.boards.remove(place)),
            None => None,
        }
    }

    /// Gives the first board with an id another one; `false` where there is none.
    pub fn replace(&mut self, old: BoardId, new: BoardId) -> bool
        ensures found { result ≡ is_some (place_of old self.old.boards) }
        ensures boards { self.new ≡ record self.old { boards = with_new_id old new self.old.boards } }
        ensures as_many { length self.new.boards ≡ length self.old.boards }
        ensures changed { OnTrue result (ChangesId old new self.old.boards self.new.boards) }
    {
        match place_of(&self.boards, old) {
            Some(place) => {
                self.boards[place] = Board { id: Some(new) };
                true
            }
            None => false,
        }
    }

    /// Takes the front board out.
    pub fn take_front(&mut self) -> Option<Board>
        ensures front { result ≡ slice_get self.old.boards 0 }
        ensures boards { self.new ≡ record self.old { boards = drop 1 self.old.boards } }
        ensures lost { IfSome result (LosesBoard self.old.boards self.new.boards) }
        ensures none { IfNone result (self.new.boards ≡ self.old.boards) }
    {
        if self.boards.is_empty() {
            return None;
        }
        Some(self.boards.remove(0))
    }
}

/// The place of the first board with an id.
fn place_of(boards: &[Board], id: BoardId) -> Option<usize>
    ensures place { result ≡ place_of id boards.now }
    ensures within { IfSome result (λ place. place < length boards.now) }
{
    boards.iter().position(|board| board.has_id(id))
}
