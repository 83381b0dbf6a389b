ghost use Rattle.std.specs.Prelude.{◌≡◌};
ghost use Rattle.line_world.specs.FloorPlan.{drive_of, with_drive};

use crate::board::Board;
use line_base::Side;

/// What lies between two machines.
#[derive(Clone, Copy, Debug, PartialEq, Eq, Hash)]
pub enum Gap {
    Free,
    /// A board that has begun to leave the upstream machine.
    Begun(Board),
    /// A board that has left the upstream machine, and isn't wholly inside the downstream one.
    Left(Board),
}

/// A gap with its two drives.
#[derive(Clone, Copy, Debug, PartialEq, Eq, Hash)]
pub struct AtGap {
    pub lies: Gap,
    /// Whether the upstream machine's drive runs.
    pub exit_drive: bool,
    /// Whether the downstream machine's drive runs.
    pub entry_drive: bool,
}

impl AtGap {
    /// Whether the drive on one side runs.
    pub fn drive(&self, side: Side) -> bool
        ensures { result ≡ drive_of self.now side }
    {
        match side {
            Side::Exit => self.exit_drive,
            Side::Entry => self.entry_drive,
        }
    }

    /// Switches the drive on one side.
    pub fn set_drive(&mut self, side: Side, on: bool)
        ensures drive { self.new ≡ with_drive self.old side on }
        ensures lies { self.new.lies ≡ self.old.lies }
    {
        match side {
            Side::Exit => self.exit_drive = on,
            Side::Entry => self.entry_drive = on,
        }
    }
}
