use node_core::No;

/// Why no step is made.
#[derive(Clone, Copy, Debug, PartialEq, Eq)]
pub enum NotDone {
    /// The machine can't take that input now, for this reason.
    No(No),
    /// Memory was wanting, in this step or before it.
    Memory,
}
