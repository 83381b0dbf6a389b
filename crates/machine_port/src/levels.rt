ghost use Rattle.std.specs.Prelude.{◌≡◌};
ghost use Rattle.machine_port.specs.Levels.{all_off, level_act, levels_after};

use line_base::Side;
use node_core::{Act, Signal};

/// How the drives and a bridge's own signals stand.
#[derive(Clone, Copy, Debug, PartialEq, Eq)]
pub struct Levels {
    /// The drive of the conveyor at the entry runs.
    pub entry_drive: bool,
    /// The drive of the conveyor at the exit runs.
    pub exit_drive: bool,
    /// Board Available at a bridge's entry.
    pub entry_available: bool,
    /// Failed Board Available at a bridge's entry.
    pub entry_failed: bool,
    /// Machine Ready at a bridge's exit.
    pub exit_ready: bool,
}

impl Levels {
    /// Those of a machine that did nothing yet.
    pub fn off() -> Levels
        ensures { result ≡ all_off }
    {
        Levels {
            entry_drive: false,
            exit_drive: false,
            entry_available: false,
            entry_failed: false,
            exit_ready: false,
        }
    }

    /// The machine did these acts.
    pub(crate) fn obey(&mut self, acts: &[Act])
        ensures { self.new ≡ levels_after self.old acts.now }
    {
        for act in acts {
            self.obey_one(act);
        }
    }

    fn obey_one(&mut self, act: &Act)
        ensures { self.new ≡ level_act self.old act.now }
    {
        match act {
            Act::Drive(Side::Entry, on) => self.entry_drive = *on,
            Act::Drive(Side::Exit, on) => self.exit_drive = *on,
            Act::Signals(Signal::EntryAvailable, on) => self.entry_available = *on,
            Act::Signals(Signal::EntryFailed, on) => self.entry_failed = *on,
            Act::Signals(Signal::ExitReady, on) => self.exit_ready = *on,
            _ => {}
        }
    }
}
