ghost use Rattle.std.specs.Prelude.{◌≡◌, ◌+◌, ◌≤◌, [], Some, IfOk, length, option_map, vec_len, vec_capacity};
ghost use Rattle.line_outside.specs.Store.{Account, told, given_as, given_of, weight_of, weights_of, noted};

use crate::port_call::PortCall;
use line_base::Memory;
use std::alloc::Global;
use std::marker::Model;

/// What ports in memory tell: their calls, with the bytes of all of them in one block.
///
/// Its room is taken when it is made. A call that doesn't fit is not told, and from then on none
/// is.
#[derive(Debug, Drop)]
pub struct Told {
    calls: Vec<PortCall>,
    bytes: Vec<u8>,
    calls_room: usize,
    bytes_room: usize,
    dropped: bool,
}

impl Model for Told {
    ghost use Rattle.std.specs.Prelude.{length, vec_len, vec_capacity};
    ghost use Rattle.line_outside.specs.Room.{HasRoom};
    ghost use Rattle.line_outside.specs.Store.{Account, told, given_of, weights_of};

    ghost Value = { Account };

    ghost view = { λ t. record {
      given = told t.dropped (given_of t.calls.items t.bytes.items);
      calls = t.calls_room;
      bytes = t.bytes_room;
    } };

    ghost invariant = { λ t. HasRoom (vec_len t.calls) t.calls_room (vec_capacity t.calls)
        (vec_len t.bytes) t.bytes_room (vec_capacity t.bytes) (weights_of t.calls.items)
        (length t.bytes.items) };
}

impl Told {
    /// Nothing yet, with room for so many calls and so many bytes.
    pub fn new(alloc: Global, calls_room: usize, bytes_room: usize) -> Result<Told, Memory>
        ensures { IfOk result
            (λ t. t ≡ record { given = Some []; calls = calls_room; bytes = bytes_room }) }
    {
        let calls = match Vec::with_capacity(alloc, calls_room) {
            Ok(calls) => calls,
            Err(_) => return Err(Memory),
        };
        match Vec::with_capacity(alloc, bytes_room) {
            Ok(bytes) => Ok(Told {
                calls,
                bytes,
                calls_room,
                bytes_room,
                dropped: false,
            }),
            Err(_) => Err(Memory),
        }
    }

    /// Tells one call more, with its bytes.
    pub fn note(&mut self, call: PortCall, bytes: &[u8])
        requires { weight_of call ≡ length bytes.now }
        ensures { self.new ≡ noted self.old (given_as call bytes.now) (length bytes.now) }
    {
        if self.dropped || self.calls_room == 0 || self.bytes_room < bytes.len() {
            self.dropped = true;
            return;
        }
        self.calls_room -= 1;
        self.bytes_room -= bytes.len();
        self.calls.push(call).unwrap();
        self.bytes.extend_from_slice(bytes).unwrap();
    }

    /// The calls and their bytes, where they are told.
    pub fn told(&self) -> Option<(&[PortCall], &[u8])>
        ensures { option_map (λ t. given_of t.0.now t.1.now) result ≡ self.now.given }
    {
        if self.dropped {
            return None;
        }
        Some((self.calls.as_slice(), self.bytes.as_slice()))
    }
}
