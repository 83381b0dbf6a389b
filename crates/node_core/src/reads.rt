ghost use Rattle.std.specs.Prelude.{◌≡◌, ◌++◌, OnOk};
ghost use Rattle.node_core.specs.Reads.{reads, all_read};

use crate::act::{Act, Outputs};
use crate::desk::Desk;
use crate::lane::Body;
use board_record::Sensed;
use handover_in::InInput;
use handover_out::OutInput;
use line_base::{Memory, Side};

impl Body {
    /// A side reads one sensor event.
    fn read(&mut self, desk: &Desk, sensed: Sensed, to: &mut Outputs) -> Result<(), Memory>
        ensures body { OnOk result (self.new ≡ (reads desk.now sensed self.old).body) }
        ensures acts { OnOk result (to.new ≡ to.old ++ (reads desk.now sensed self.old).acts) }
    {
        to.push(Act::Reads(sensed.side, sensed.event))?;
        match sensed.side {
            Side::Entry => self.at_intake(desk, InInput::Sensed(sensed.event), to),
            Side::Exit => self.at_outlet(desk, OutInput::Sensed(sensed.event), to),
        }
    }

    /// The unread sensor events are read in order.
    pub(crate) fn read_all(
        &mut self,
        desk: &Desk,
        unread: &[Sensed],
        to: &mut Outputs,
    ) -> Result<(), Memory>
        ensures body { OnOk result (self.new ≡ (all_read desk.now unread.now self.old).body) }
        ensures acts { OnOk result (to.new ≡ to.old ++ (all_read desk.now unread.now self.old).acts) }
    {
        for sensed in unread {
            self.read(desk, *sensed, to)?;
        }
        Ok(())
    }
}
