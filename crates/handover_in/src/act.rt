ghost use Rattle.std.specs.Prelude.{◌≡◌, Some, false};
ghost use Rattle.handover_in.specs.Act.{nothing, sends, drive_off, starts, stop, settles, drops};
ghost use Rattle.handover_in.specs.Own.{said_of};

use board_record::{BoardId, Record};
use line_base::{Seen, Transfer};

/// What an intake does at an input. The deed comes first, then what is sent, then the drive.
#[derive(Debug, PartialEq, Eq, Drop)]
pub struct InAct {
    pub deed: Option<InDeed>,
    pub send: Option<InSend>,
    /// Switches the entry's drive on or off.
    pub drive: Option<bool>,
    /// The record that `Settles` hands on to be kept.
    pub keep: Option<Record>,
    /// Whether the board was dropped since it was taken out by hand.
    pub taken: bool,
}

/// What becomes of a board at the entry.
#[derive(Clone, Copy, Debug, PartialEq, Eq)]
pub enum InDeed {
    /// The transport of this board starts: the intake holds its record.
    Starts(BoardId),
    /// The board is the machine's, and its record is handed on.
    Settles(BoardId),
    /// The board didn't come, and its record is dropped.
    Drops(BoardId),
}

/// What an intake has to say.
#[derive(Clone, Copy, Debug, PartialEq, Eq)]
pub enum InSend {
    MachineReady,
    RevokeMachineReady,
    /// StartTransport.
    Start(BoardId),
    /// StopTransport.
    Stop { state: Transfer, id: BoardId },
}

impl InAct {
    pub(crate) fn nothing() -> InAct
        ensures { result ≡ nothing }
    {
        InAct {
            deed: None,
            send: None,
            drive: None,
            keep: None,
            taken: false,
        }
    }

    pub(crate) fn sends(what: InSend) -> InAct
        ensures { result ≡ sends what }
    {
        InAct {
            send: Some(what),
            ..InAct::nothing()
        }
    }

    pub(crate) fn drive_off() -> InAct
        ensures { result ≡ drive_off }
    {
        InAct {
            drive: Some(false),
            ..InAct::nothing()
        }
    }

    pub(crate) fn starts(id: BoardId) -> InAct
        ensures { result ≡ starts id }
    {
        InAct {
            deed: Some(InDeed::Starts(id)),
            send: Some(InSend::Start(id)),
            drive: Some(true),
            keep: None,
            taken: false,
        }
    }

    pub(crate) fn stops(send: Option<InSend>) -> InAct
        ensures { result ≡ record nothing { send = send; drive = Some false } }
    {
        InAct {
            send,
            drive: Some(false),
            ..InAct::nothing()
        }
    }

    pub(crate) fn settles(board: Record, send: Option<InSend>, drive: Option<bool>) -> InAct
        ensures { result ≡ settles board send drive }
    {
        InAct {
            deed: Some(InDeed::Settles(board.id)),
            send,
            drive,
            keep: Some(board),
            taken: false,
        }
    }

    pub(crate) fn drops(
        board: Record,
        own: Seen,
        send: Option<InSend>,
        drive: Option<bool>,
    ) -> InAct
        ensures { result ≡ drops board own send drive }
    {
        let id = board.id;
        drop(board);
        InAct {
            deed: Some(InDeed::Drops(id)),
            send,
            drive,
            keep: None,
            taken: own == Seen::Taken,
        }
    }
}

/// StopTransport with what the sensors saw.
pub(crate) fn stop(board: &Record, own: Seen) -> Option<InSend>
    ensures { result ≡ stop board.now own }
{
    Some(InSend::Stop {
        state: said_of(own),
        id: board.id,
    })
}

fn said_of(own: Seen) -> Transfer
    ensures { result ≡ said_of own }
{
    match own {
        Seen::NotStarted => Transfer::NotStarted,
        Seen::Incomplete => Transfer::Incomplete,
        Seen::Complete => Transfer::Complete,
        Seen::Taken => Transfer::Incomplete,
    }
}
