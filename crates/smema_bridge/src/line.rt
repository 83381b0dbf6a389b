/// A signal of the segment.
#[derive(Clone, Copy, Debug, PartialEq, Eq)]
pub enum SegmentLine {
    /// Machine Ready at the segment's entry: it has a place for a board.
    Ready,
    /// Board Available at the segment's exit: a board is there to be taken.
    Available,
    /// Failed Board Available at the segment's exit: that board is a failed one.
    Failed,
}
