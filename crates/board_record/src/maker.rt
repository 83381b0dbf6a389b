ghost use Rattle.std.specs.Prelude.{IsErr, ◌↔◌, ◌-◌, ◌≡◌, ℕ, ◌+◌, ◌<◌, ◌≤◌, ◌^◌, IfOk};
ghost use Rattle.board_record.specs.Maker.{Maker, made_id, next_id, after_next, IsMadeAlone};

use crate::id::BoardId;
use std::marker::Model;

const MOST_IDS: u64 = 0xFFFF_FFFF_FFFF;

/// What a machine's number counts in an id.
const MACHINE_PLACE: u128 = 0x1_0000_0000_0000_0000_0000_0000;

/// The version and the variant of a made id.
const MARKS: u128 = 0x8000_8000_0000_0000_0000;

/// Makes the ids of one machine's boards, each new.
#[derive(Debug, Drop)]
pub struct IdMaker {
    machine: u32,
    used: u64,
}

impl Model for IdMaker {
    ghost Value = { Maker };

    ghost view = { λ maker. record { machine = maker.machine; used = maker.used } };

    ghost invariant = { λ maker. maker.used < 2 ^ 48 };
}

/// A machine has made all its 2^48 - 1 ids.
#[derive(Clone, Copy, Debug, PartialEq, Eq)]
pub struct IdsUsedUp;

impl IdMaker {
    /// The maker of a machine that has made `used` ids before.
    pub fn new(machine: u32, used: u64) -> IdMaker
        requires { used < 2 ^ 48 }
        ensures { result ≡ record { machine = machine; used = used } }
    {
        IdMaker { machine, used }
    }

    /// The next id, `mmmmmmmm-0000-8000-8000-cccccccccccc` with the machine and the new count in
    /// hexadecimal. `IdsUsedUp` exactly where the count is 2^48 - 1.
    pub fn next(&mut self) -> Result<BoardId, IdsUsedUp>
        ensures answer { result ≡ next_id self.old }
        ensures used_up { IsErr result ↔ (self.old.used ≡ 2 ^ 48 - 1) }
        ensures after { self.new ≡ after_next self.old }
        // no other machine and no other count makes this id
        ensures alone { IfOk result (IsMadeAlone self.new) }
    {
        if self.used >= MOST_IDS {
            return Err(IdsUsedUp);
        }
        self.used += 1;
        let machine = u128::from(self.machine);
        Ok(BoardId::of(machine * MACHINE_PLACE + MARKS + u128::from(self.used)))
    }

    /// How many ids it has made, those before it was made among them.
    pub fn used(&self) -> u64
        ensures count { result ≡ self.now.used }
        ensures bounded { result < 2 ^ 48 }
    {
        self.used
    }
}
