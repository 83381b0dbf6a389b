use line_base::{SensorEvent, Side};

/// One sensor event of a machine, with the side at whose gap it was seen.
#[derive(Clone, Copy, Debug, PartialEq, Eq, Hash)]
pub struct Sensed {
    pub side: Side,
    pub event: SensorEvent,
}
