ghost use Rattle.std.specs.Prelude.{◌≡◌, ◌==◌};
ghost use Rattle.machine_port.specs.Seen.{closes, closes_supervisor, runs, view_of};

use crate::Port;
use crate::numbers::{flag, state_number};
use line_base::Side;

/// How many bytes a view has.
pub const VIEW_BYTES: u32 = 136;

/// How a machine stands. Of two, the first is the entry's, the second the exit's.
#[repr(C)]
#[derive(Clone, Copy)]
pub struct HermesView {
    /// How many bytes this has, 136.
    pub size: u32,
    /// 1 where memory was wanting in a step: then no drive may run, and each connection is to be
    /// closed.
    pub spent: u32,
    /// 1 where its body is a segment with signals.
    pub bridge: u32,
    /// 1 while a supervisor's session stands.
    pub supervised: u32,
    /// The number of each side's state.
    pub state: [u32; 2],
    /// 1 where the intake, the outlet holds the record of a board between two machines.
    pub held: [u32; 2],
    /// 1 while the drive of that side is to run.
    pub drive: [u32; 2],
    /// A bridge's own signals: Board Available and Failed Board Available at its entry, Machine
    /// Ready at its exit; then 0.
    pub signal: [u32; 4],
    /// 1 where the connection of that side, then that of the supervisor, is to be closed, once its
    /// text is sent; then 0.
    pub close: [u32; 4],
    /// How many records are kept.
    pub kept: u64,
    /// How many acts the last step had.
    pub acts: u64,
    /// How many bytes wait to be sent, by the number of the way.
    pub unsent: [u64; 4],
    /// How many ids it has made, those of the profile among them.
    pub ids_made: u64,
    /// How many steps it made, as far as 64 bits count.
    pub steps: u64,
}

/// How a machine stands.
pub fn view_of(port: &Port) -> HermesView
    ensures { result ≡ view_of port.now }
{
    let machine = port.node();
    let levels = port.levels();
    HermesView {
        size: VIEW_BYTES,
        spent: flag(port.is_spent()),
        bridge: flag(machine.is_bridge()),
        supervised: flag(machine.is_supervised()),
        state: [
            state_number(machine.state(Side::Entry)),
            state_number(machine.state(Side::Exit)),
        ],
        held: [
            flag(machine.intake().holds().is_some()),
            flag(machine.outlet().holds().is_some()),
        ],
        drive: [
            runs(port, levels.entry_drive),
            runs(port, levels.exit_drive),
        ],
        signal: [
            flag(levels.entry_available),
            flag(levels.entry_failed),
            flag(levels.exit_ready),
            0,
        ],
        close: [
            closes(port, Side::Entry),
            closes(port, Side::Exit),
            closes_supervisor(port),
            0,
        ],
        kept: machine.kept().len() as u64,
        acts: port.last().len() as u64,
        unsent: [
            port.way(Side::Entry).text().len() as u64,
            port.way(Side::Exit).text().len() as u64,
            port.supervisor().text().len() as u64,
            port.refusal().len() as u64,
        ],
        ids_made: port.ids_made(),
        steps: port.steps(),
    }
}

/// Whether a drive may run: not where memory was wanting.
fn runs(port: &Port, on: bool) -> u32
    ensures { result ≡ runs port.now on }
{
    flag(!port.is_spent() && on)
}

/// Whether the connection of a side is to be closed: also where memory was wanting.
fn closes(port: &Port, side: Side) -> u32
    ensures { result ≡ closes port.now side }
{
    flag(port.is_spent() || port.way(side).closes())
}

/// Whether the connection of the supervisor is to be closed: also where memory was wanting.
fn closes_supervisor(port: &Port) -> u32
    ensures { result ≡ closes_supervisor port.now }
{
    flag(port.is_spent() || port.supervisor().closes())
}
