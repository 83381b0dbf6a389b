ghost use Rattle.std.specs.Prelude.{◌≤◌, IfOk, length};
ghost use Rattle.line_engine.specs.Tracks.{FollowsTrack};

use board_record::BoardId;
use line_base::Memory;
use line_machines::State;
use line_marks::{Index, Moved, Span};

/// A lane along the whole line: its line, and the index of its boards.
#[derive(Drop)]
pub struct Track {
    pub(crate) state: State,
    pub(crate) index: Index,
}

impl Track {
    /// The index follows a line of which these machines may have stepped, with one board.
    pub fn follow(&mut self, lane: u32, span: Span, id: BoardId) -> Result<Moved, Memory>
        requires early { span.first ≤ 64 }
        requires few { length self.old.state.machines ≤ 64 }
        ensures { IfOk result (FollowsTrack lane span.first span.last id self.old self.new) }
    {
        self.index.follow(lane, self.state.machines(), span, id)
    }
}
