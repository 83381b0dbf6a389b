ghost use Rattle.std.specs.Prelude.{◌≡◌};
ghost use Rattle.line_world.specs.FloorPlan.{has_id};

use board_record::BoardId;

/// A board on the floor. One that came in unseen has no id.
#[derive(Clone, Copy, Debug, PartialEq, Eq, Hash)]
pub struct Board {
    pub id: Option<BoardId>,
}

impl Board {
    /// Whether the board has this id.
    pub fn has_id(&self, id: BoardId) -> bool
        ensures { result ≡ has_id id self.now }
    {
        match self.id {
            Some(own) => own == id,
            None => false,
        }
    }
}
