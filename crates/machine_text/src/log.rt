ghost use Rattle.std.specs.Prelude.{◌≡◌, ◌++◌, OnOk};
ghost use Rattle.machine_text.specs.Logs.{TellsOwn, log_of};

use line_base::Memory;
use machine_log::{acts_are_proper, write_lines};
use machine_port::Port;

/// Appends the lines of the last step's acts, as a node logs them that tells its drives: the step's
/// number in front. None where no step was made yet, or the last call made none. `Memory` where there
/// is no room for them.
#[tactic(auto, using(crate::proofs::Reading::tells_own))]
pub fn write_log(port: &Port, to: &mut Vec<u8>) -> Result<(), Memory>
    ensures lines { OnOk result (to.new.items ≡ to.old.items ++ log_of port.now) }
    ensures owns { TellsOwn port.now }
{
    acts_are_proper(port.last());
    write_lines(true, port.steps(), port.number(), port.last(), to)
}
