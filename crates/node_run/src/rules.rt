use line_base::Text;
use node_settings::{Connections, Panel};

/// What a run goes by.
#[derive(Drop)]
pub struct Rules {
    /// The machine's number in its log.
    pub number: u32,
    /// Its id text, by which it describes itself to its supervisory system.
    pub machine_id: Text,
    /// How it is connected.
    pub connections: Connections,
    /// After how many turns it ends.
    pub turns: u64,
    /// What its panel is told, and from where it may connect.
    pub panel: Panel,
}
