ghost use Rattle.std.specs.Prelude.{◌≡◌};
ghost use Rattle.node_commands.specs.Command.{DoesNode, FitsNode, HasCauses, is_one, status_of};

use crate::settings_file::{FileError, read_file};
use line_base::Words;
use line_outside::{Clock, Ports, Sink, Source};
use node_run::{NodeStatus, run_node};
use node_settings::{SettingsError, read_settings};
use std::alloc::Global;

/// Runs the machine whose settings are in the file that the one word names: its bytes are `file`.
/// With other than one word it answers `Usage`. `node_main` of `node_cli`, which says more of it, is
/// this call with all that holds of it.
pub fn run_named<S: Source, P: Ports, C: Clock, K: Sink>(
    alloc: Global,
    words: &Words,
    file: &mut S,
    ports: &mut P,
    clock: &mut C,
    log: &mut K,
) -> NodeStatus
    ensures does { DoesNode (is_one words.now) (S.left file.old) (C.moment clock.old)
        (P.given ports.old) (P.given ports.new) (K.contents log.old) (K.contents log.new) result }
    ensures fits { FitsNode (is_one words.now) result }
    ensures causes { HasCauses result (S.faults file.old) (S.faults file.new) (P.faults ports.old)
        (P.faults ports.new) (K.faults log.old) (K.faults log.new) }
{
    if words.list().len() != 1 {
        return NodeStatus::Usage;
    }
    let bytes = match read_file(alloc, file) {
        Ok(bytes) => bytes,
        Err(FileError::Fault) => return NodeStatus::ReadFault,
        Err(FileError::Memory) => return NodeStatus::Memory,
    };
    match read_settings(alloc, bytes.as_slice()) {
        Ok(settings) => run_node(alloc, settings, ports, clock, log),
        Err(error) => status_of(error),
    }
}

/// How the program ends where the settings could not be read.
pub fn status_of(error: SettingsError) -> NodeStatus
    ensures { result ≡ status_of error }
{
    match error {
        SettingsError::Refused(key, why) => NodeStatus::ConfigRefused(key, why),
        SettingsError::Memory => NodeStatus::Memory,
    }
}
