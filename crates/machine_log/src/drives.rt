ghost use Rattle.std.specs.Prelude.{◌≡◌};
ghost use Rattle.machine_log.specs.Drives.{all_off, drives_act, drives_after};

use line_base::Side;
use node_core::Act;

/// Which drives of a machine run, as its acts say.
#[derive(Clone, Copy, Debug, PartialEq, Eq)]
pub struct Drives {
    /// That of the conveyor at its entry.
    pub entry: bool,
    /// That of the conveyor at its exit.
    pub exit: bool,
}

impl Drives {
    /// The drives of a machine that did nothing yet.
    pub fn off() -> Drives
        ensures { result ≡ all_off }
    {
        Drives {
            entry: false,
            exit: false,
        }
    }

    /// The machine did these acts.
    pub fn obey(&mut self, acts: &[Act])
        ensures { self.new ≡ drives_after self.old acts.now }
    {
        for act in acts {
            self.obey_one(act);
        }
    }

    fn obey_one(&mut self, act: &Act)
        ensures { self.new ≡ drives_act self.old act.now }
    {
        match act {
            Act::Drive(Side::Entry, on) => self.entry = *on,
            Act::Drive(Side::Exit, on) => self.exit = *on,
            _ => {}
        }
    }
}
