ghost use Rattle.std.specs.Prelude.{◌≡◌, ◌==◌, Option, None, Some, is_some, option_map};

use crate::loose::Loose;
use crate::slot::Slot;
use machine_port::Port;
use std::alloc::Global;
use std::mem;

/// A machine, or none: what a C program keeps of it. All zero bytes are none.
///
/// `slot.held` is the machine that the handle has; each call's contract speaks of it.
#[repr(C)]
pub struct HermesMachine {
    full: u64,
    pub slot: Slot,
    ghost tied: { is_some slot.held ≡ (full == 1) },
}

impl HermesMachine {
    fn empty() -> HermesMachine
        ensures { result.slot.held ≡ None }
    {
        HermesMachine {
            full: 0,
            slot: Slot::empty(),
        }
    }

    /// Takes the machine out; `None` exactly where there is none.
    pub fn take(&mut self, alloc: Global) -> Option<Box<Port>>
        ensures taken { option_map (λ machine. machine.value) result ≡ self.old.slot.held }
        ensures empty { self.new.slot.held ≡ None }
    {
        let HermesMachine { full, slot } = mem::replace(self, HermesMachine::empty());
        if full == 1 {
            return Some(slot.into_loose(alloc).into_box());
        }
        slot.discard();
        None
    }

    /// Puts a machine into an empty handle.
    pub fn put(&mut self, machine: Box<Port>)
        requires { self.old.slot.held ≡ None }
        ensures { self.new.slot.held ≡ Some machine.value }
    {
        let full = HermesMachine {
            full: 1,
            slot: Slot::full(Loose::of(machine)),
        };
        let HermesMachine { full: _, slot } = mem::replace(self, full);
        slot.discard();
    }
}
