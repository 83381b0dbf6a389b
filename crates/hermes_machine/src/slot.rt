ghost use Rattle.std.specs.Prelude.{◌≡◌, true, Option, Some, None, is_some};
ghost use Rattle.machine_port.specs.Port.{PortState};

use crate::loose::Loose;
use machine_port::Port;
use std::alloc::Global;
use std::marker::Model;

/// What C sees of a machine.
#[repr(C)]
#[derive(Drop)]
pub struct Opaque {
    byte: u8,
}

/// A machine as its pointer, or none. The ghost field is the machine that its block has.
#[repr(C)]
pub struct Slot {
    at: *mut Opaque,
    pub ghost held: { Option PortState },
}

impl Model for Slot {
    ghost use Rattle.hermes_machine.specs.Owned.{slot_owns};
    ghost use Rattle.machine_port.specs.contracts.port.Port.{the_row as machine_row};

    ghost also_owns = { λ slot. slot_owns machine_row slot.at slot.held };
}

impl Slot {
    pub fn empty() -> Slot
        ensures { result.held ≡ None }
    {
        Slot {
            at: std::ptr::null_mut(),
        }
    }

    pub fn full(loose: Loose<Port, Global>) -> Slot
        ensures { result.held ≡ Some loose.value }
    {
        let Loose { at, alloc: _alloc } = loose;
        Slot { at: at.cast() }
    }

    pub fn into_loose(self, alloc: Global) -> Loose<Port, Global>
        requires { is_some self.held ≡ true }
        ensures { self.held ≡ Some result.value }
    {
        let Slot { at } = self;
        Loose {
            at: at.cast(),
            alloc,
        }
    }

    pub fn discard(self)
        requires { self.held ≡ None }
    {
        let Slot { at: _ } = self;
    }
}
