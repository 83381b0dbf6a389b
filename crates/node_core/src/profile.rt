use line_base::Text;

/// What a machine is made from.
#[derive(Debug, PartialEq, Eq, Drop)]
pub struct NodeProfile {
    /// The number in the ids that it makes.
    pub number: u32,
    /// Its id text.
    pub machine: Text,
    /// The number of its lane, as it describes itself.
    pub lane: u32,
    /// How many boards it has places for.
    pub capacity: u32,
    /// How many ids it made before.
    pub used: u64,
    /// Whether its body is a segment with signals.
    pub bridge: bool,
}
