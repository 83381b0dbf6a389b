ghost use Rattle.std.specs.Prelude.{◌≡◌, List, IfOk};

use board_record::Sensed;
use line_base::Memory;
use std::alloc::Global;
use std::marker::Model;

/// Sensor events in the order in which they were seen.
#[derive(Debug, Drop)]
pub struct Sensors {
    events: Vec<Sensed>,
}

impl Model for Sensors {
    ghost use Rattle.std.specs.Prelude.{List};
    ghost use Rattle.board_record.specs.declared.sensed.Sensed.{Sensed};

    ghost Value = { List Sensed };

    ghost view = { λ sensors. sensors.events.items };
}

impl Sensors {
    /// A list of its own of these events.
    pub(crate) fn of(alloc: Global, events: &[Sensed]) -> Result<Sensors, Memory>
        ensures { IfOk result (λ sensors. sensors ≡ events.now) }
    {
        match Vec::from_slice(alloc, events) {
            Ok(events) => Ok(Sensors { events }),
            Err(_) => Err(Memory),
        }
    }

    /// The events, the oldest first.
    pub fn list(&self) -> &[Sensed]
        ensures { result.now ≡ self.now }
    {
        self.events.as_slice()
    }
}
