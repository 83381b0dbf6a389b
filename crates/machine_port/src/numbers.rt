ghost use Rattle.std.specs.Prelude.{◌≡◌};
ghost use Rattle.machine_port.specs.Numbers.{event_number, flag, flip_number, id_bytes, message_number, quality_number, side_number, signal_number, state_number};

use board_record::BoardId;
use hermes_horizontal::Kind;
use line_base::{Flip, Quality, SensorEvent, Side};
use node_core::{HermesState, Signal};

pub fn flag(is: bool) -> u32
    ensures { result ≡ flag is }
{
    if is { 1 } else { 0 }
}

/// The bytes of an id, the most significant first.
pub fn id_bytes(id: BoardId) -> [u8; 16]
    ensures { result ≡ id_bytes id }
{
    id.number().to_be_bytes()
}

pub fn side_number(side: Side) -> u32
    ensures { result ≡ side_number side }
{
    match side {
        Side::Entry => 0,
        Side::Exit => 1,
    }
}

pub fn event_number(event: SensorEvent) -> u32
    ensures { result ≡ event_number event }
{
    match event {
        SensorEvent::Begun => 0,
        SensorEvent::Left => 1,
        SensorEvent::Full => 2,
        SensorEvent::Back => 3,
        SensorEvent::Taken => 4,
    }
}

pub fn quality_number(quality: Quality) -> u32
    ensures { result ≡ quality_number quality }
{
    match quality {
        Quality::Unknown => 0,
        Quality::Good => 1,
        Quality::Failed => 2,
    }
}

pub fn flip_number(flip: Flip) -> u32
    ensures { result ≡ flip_number flip }
{
    match flip {
        Flip::Unknown => 0,
        Flip::TopUp => 1,
        Flip::BottomUp => 2,
    }
}

pub fn signal_number(signal: Signal) -> u32
    ensures { result ≡ signal_number signal }
{
    match signal {
        Signal::EntryAvailable => 0,
        Signal::EntryFailed => 1,
        Signal::ExitReady => 2,
    }
}

pub fn message_number(kind: Kind) -> u32
    ensures { result ≡ message_number kind }
{
    match kind {
        Kind::CheckAlive => 0,
        Kind::ServiceDescription => 1,
        Kind::Notification => 2,
        Kind::BoardAvailable => 3,
        Kind::RevokeBoardAvailable => 4,
        Kind::MachineReady => 5,
        Kind::RevokeMachineReady => 6,
        Kind::StartTransport => 7,
        Kind::StopTransport => 8,
        Kind::TransportFinished => 9,
        Kind::BoardForecast => 10,
        Kind::QueryBoardInfo => 11,
        Kind::SendBoardInfo => 12,
        Kind::Other => 31,
    }
}

pub fn state_number(state: HermesState) -> u32
    ensures { result ≡ state_number state }
{
    match state {
        HermesState::NotConnected => 0,
        HermesState::ServiceDescription => 1,
        HermesState::NotAvailableNotReady => 2,
        HermesState::BoardAvailable => 3,
        HermesState::MachineReady => 4,
        HermesState::AvailableAndReady => 5,
        HermesState::Transporting => 6,
        HermesState::TransportStopped => 7,
        HermesState::TransportFinished => 8,
    }
}
