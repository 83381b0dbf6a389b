/// The edges of a bridge's own signals: for each the level to which it changed, and `None` exactly
/// where it stayed.
#[derive(Clone, Copy, Debug, PartialEq, Eq)]
pub struct BridgeEdges {
    /// Board Available at the entry.
    pub available: Option<bool>,
    /// Failed Board Available at the entry.
    pub failed: Option<bool>,
    /// Machine Ready at the exit.
    pub ready: Option<bool>,
}
