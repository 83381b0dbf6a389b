ghost use Rattle.std.specs.Prelude.{◌≡◌, ◌++◌, IfOk, OnOk};
ghost use Rattle.node_commands.specs.Ends.{TellsEnd, end_text, host_text, refused_text, unheard_text, why_text};
ghost use Rattle.node_run.specs.declared.status.NodeStatus.TheVariants as statuses;

use line_base::Memory;
use line_outside::{Address, Pushed, Sink, push_all};
use node_run::NodeStatus;
use node_settings::{ConfigKey, ConfigWhy};
use std::alloc::Global;
use std::io::Write;

/// Why the line of an end was not written whole.
#[derive(Clone, Copy, Debug, PartialEq, Eq)]
pub enum EndError {
    /// The sink failed. A front of the line was written.
    Fault,
    /// Memory was wanting for a line that names what of the settings is refused, or an address.
    /// Nothing was written.
    Memory,
}

/// Writes why the program ends, and what is to be done then, in one line. It writes nothing where
/// the panel ended the run.
pub fn tell_end<K: Sink>(alloc: Global, status: NodeStatus, to: &mut K) -> Result<(), EndError>
    ensures { TellsEnd status result (K.contents to.old) (K.contents to.new) (K.faults to.old)
        (K.faults to.new) }
{
    match status {
        NodeStatus::Done => tell(status, b"", to),
        NodeStatus::Usage => tell(status, b"usage: node <settings file>\n", to),
        NodeStatus::ConfigRefused(key, why) => tell_refused(alloc, key, why, to),
        NodeStatus::ReadFault => tell(
            status,
            b"node: can't read the settings file; give the name of one that may be read\n",
            to,
        ),
        NodeStatus::LogFault => tell(
            status,
            b"node: can't write the log; give its disk room, or its reader time, and start again\n",
            to,
        ),
        NodeStatus::Memory => tell(
            status,
            b"node: out of memory; end other programs and start again\n",
            to,
        ),
        NodeStatus::ListenFault(address) => tell_unheard(alloc, address, to),
        NodeStatus::TurnsUsed => tell(
            status,
            b"node: all turns are used; set more of them and start again\n",
            to,
        ),
    }
}

/// Writes the line of an end, which is this text.
fn tell<K: Sink>(status: NodeStatus, text: &[u8], to: &mut K) -> Result<(), EndError>
    requires { text.now ≡ end_text status }
    ensures { TellsEnd status result (K.contents to.old) (K.contents to.new) (K.faults to.old)
        (K.faults to.new) }
{
    match push_all(to, text) {
        Pushed::Whole => Ok(()),
        Pushed::Failed => Err(EndError::Fault),
    }
}

fn tell_refused<K: Sink>(
    alloc: Global,
    key: ConfigKey,
    why: ConfigWhy,
    to: &mut K,
) -> Result<(), EndError>
    ensures { TellsEnd (statuses.ConfigRefused key why) result (K.contents to.old)
        (K.contents to.new) (K.faults to.old) (K.faults to.new) }
{
    match refused_text(alloc, key, why) {
        Ok(text) => tell(NodeStatus::ConfigRefused(key, why), text.as_slice(), to),
        Err(Memory) => Err(EndError::Memory),
    }
}

fn tell_unheard<K: Sink>(alloc: Global, address: Address, to: &mut K) -> Result<(), EndError>
    ensures { TellsEnd (statuses.ListenFault address) result (K.contents to.old)
        (K.contents to.new) (K.faults to.old) (K.faults to.new) }
{
    match unheard_text(alloc, address) {
        Ok(text) => tell(NodeStatus::ListenFault(address), text.as_slice(), to),
        Err(Memory) => Err(EndError::Memory),
    }
}

/// The line of refused settings.
fn refused_text(alloc: Global, key: ConfigKey, why: ConfigWhy) -> Result<Vec<u8>, Memory>
    ensures { IfOk result (λ text. text.items ≡ refused_text key why) }
{
    let why = why_text(why);
    let mut text = Vec::new(alloc);
    match write!(
        text,
        "node: settings refused: {key}: {why}; mend the file\n"
    ) {
        Ok(()) => Ok(text),
        Err(_) => Err(Memory),
    }
}

fn why_text(why: ConfigWhy) -> &'static str
    ensures { result.now ≡ why_text why }
{
    match why {
        ConfigWhy::TooLarge => "too large",
        ConfigWhy::NotToml => "no TOML",
        ConfigWhy::Missing => "missing",
        ConfigWhy::WrongKind => "wrong kind",
        ConfigWhy::OutOfRange => "out of range",
        ConfigWhy::UnknownKey => "unknown key",
    }
}

/// The line of an address that could not be listened at.
fn unheard_text(alloc: Global, address: Address) -> Result<Vec<u8>, Memory>
    ensures { IfOk result (λ text. text.items ≡ unheard_text address) }
{
    let port = address.port;
    let mut text = Vec::new(alloc);
    text.extend_from_slice(b"node: can't listen at ")?;
    write_host(&address.host, &mut text)?;
    match write!(
        text,
        ":{port}; end the program that does, or set another port\n"
    ) {
        Ok(()) => Ok(text),
        Err(_) => Err(Memory),
    }
}

/// Appends the parts of an address.
fn write_host(host: &[u8], to: &mut Vec<u8>) -> Result<(), Memory>
    ensures { OnOk result (to.new.items ≡ to.old.items ++ host_text host.now) }
{
    match host {
        [a, b, c, d] => write!(to, "{a}.{b}.{c}.{d}").map_err(|_| Memory),
        _ => Ok(()),
    }
}
