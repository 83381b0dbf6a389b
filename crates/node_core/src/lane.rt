use crate::inbox::Inbox;
use crate::shelf::Shelf;
use board_record::BoardId;
use handover_in::Intake;
use handover_out::Outlet;
use session_core::Session;

/// One side of a lane: its session, and whether the machine is willing to hand boards over there.
#[derive(Drop)]
pub struct End {
    pub(crate) session: Session,
    pub(crate) willing: bool,
}

/// What the tables speak of: the records that are kept, the two halves of handovers, the two sides,
/// and the board that was offered last, which nothing clears.
#[derive(Drop)]
pub struct Body {
    pub(crate) kept: Shelf,
    pub(crate) outlet: Outlet,
    pub(crate) intake: Intake,
    pub(crate) entry: End,
    pub(crate) exit: End,
    pub(crate) last_offer: Option<BoardId>,
}

/// A lane of a machine: its body, and beside it the bytes of each side that make no message yet.
#[derive(Drop)]
pub struct Lane {
    pub(crate) body: Body,
    pub(crate) entry_bytes: Inbox,
    pub(crate) exit_bytes: Inbox,
}
