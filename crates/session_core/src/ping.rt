ghost use Rattle.std.specs.Prelude.{◌≡◌, IfOk};
ghost use Rattle.session_core.specs.Ping.{ping_id};

use hermes_horizontal::{Horizontal, Said};
use line_base::{Memory, Text, copied_text};
use std::alloc::Global;
use std::marker::Model;

/// The Id of a ping that was heard, which goes back with its answer. It is seen as that Id, where the
/// ping has one.
#[derive(Debug, Drop)]
pub struct PingId {
    ping: Said,
}

impl Model for PingId {
    ghost use Rattle.std.specs.Prelude.{List, Option, ℕ};
    ghost use Rattle.session_core.specs.Ping.{ping_id};

    ghost Value = { Option (List ℕ) };

    ghost view = { λ id. ping_id id.ping };
}

impl PingId {
    /// The Id of a ping, which is done with.
    pub(crate) fn of(ping: Said) -> PingId
        ensures { result ≡ ping_id ping }
    {
        PingId { ping }
    }

    /// The Id as a text of its own; `None` where the ping has none. `Memory` where there is no room
    /// for it.
    pub fn copy(&self, alloc: Global) -> Result<Option<Text>, Memory>
        ensures { IfOk result (λ id. id ≡ self.now) }
    {
        match self.ping.what() {
            Horizontal::CheckAlive { id, .. } => copied_text(alloc, id),
            _ => Ok(None),
        }
    }
}
