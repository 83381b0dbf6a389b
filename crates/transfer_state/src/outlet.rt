ghost use Rattle.std.specs.Prelude.{◌≡◌, ◌↔◌};
ghost use Rattle.transfer_state.specs.Outlet.{out_ends};

use line_base::Transfer;

/// What the upstream machine does with a board as its handover ends.
#[derive(Clone, Copy, Debug, PartialEq, Eq, Hash)]
pub enum OutEnd {
    /// The board never began to leave: its record goes back.
    Return,
    /// The board lies between the machines: its sensors will tell.
    Wait,
    /// The board has left: its record goes with it.
    Finish,
}

/// How a handover ends for the upstream machine: `own` is what its sensors saw, `heard` what the
/// downstream machine said. The board lies where the sensors saw it, so `heard` decides nothing.
pub fn out_ends(own: Transfer, heard: Transfer) -> OutEnd
    ensures cell { result ≡ out_ends own heard }
    // the record goes back exactly where its board has not begun to leave
    ensures returned { (result ≡ OutEnd.Return) ↔ (own ≡ Transfer.NotStarted) }
{
    let _heard = heard;
    match own {
        Transfer::NotStarted => OutEnd::Return,
        Transfer::Incomplete => OutEnd::Wait,
        Transfer::Complete => OutEnd::Finish,
    }
}
