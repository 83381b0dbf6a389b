ghost use Rattle.std.specs.Prelude.{◌≡◌};
ghost use Rattle.handover_out.specs.Act.{nothing, sends, drive_off, finished, leaves, returns, loses};

use board_record::{BoardId, Record};
use line_base::Transfer;

/// What an outlet does at an input. The deed comes first, then what is sent, then the drive.
#[derive(Debug, PartialEq, Eq, Drop)]
pub struct OutAct {
    pub deed: Option<OutDeed>,
    pub send: Option<OutSend>,
    /// Switches the exit's drive on or off.
    pub drive: Option<bool>,
    /// The record that `Returns` gives back.
    pub back: Option<Record>,
}

/// What becomes of a board at the exit.
#[derive(Clone, Copy, Debug, PartialEq, Eq)]
pub enum OutDeed {
    /// The handover of this board is open: the outlet holds its record.
    Opens(BoardId),
    /// The start of this board is refused.
    Refuses(BoardId),
    /// The board is the downstream machine's.
    Leaves(BoardId),
    /// The board is in the machine again, and its record is given back.
    Returns(BoardId),
    /// The board was taken out by hand.
    Loses(BoardId),
}

/// What an outlet has to say.
#[derive(Clone, Copy, Debug, PartialEq, Eq)]
pub enum OutSend {
    BoardAvailable,
    RevokeBoardAvailable,
    /// TransportFinished.
    Finished { state: Transfer, id: BoardId },
}

impl OutAct {
    pub(crate) fn nothing() -> OutAct
        ensures { result ≡ nothing }
    {
        OutAct {
            deed: None,
            send: None,
            drive: None,
            back: None,
        }
    }

    pub(crate) fn sends(what: OutSend) -> OutAct
        ensures { result ≡ sends what }
    {
        OutAct {
            deed: None,
            send: Some(what),
            drive: None,
            back: None,
        }
    }

    pub(crate) fn drive_off() -> OutAct
        ensures { result ≡ drive_off }
    {
        OutAct {
            deed: None,
            send: None,
            drive: Some(false),
            back: None,
        }
    }

    pub(crate) fn leaves(board: Record, send: Option<OutSend>, drive: Option<bool>) -> OutAct
        ensures { result ≡ leaves board send drive }
    {
        let id = board.id;
        drop(board);
        OutAct {
            deed: Some(OutDeed::Leaves(id)),
            send,
            drive,
            back: None,
        }
    }

    pub(crate) fn returns(board: Record, send: Option<OutSend>, drive: Option<bool>) -> OutAct
        ensures { result ≡ returns board send drive }
    {
        OutAct {
            deed: Some(OutDeed::Returns(board.id)),
            send,
            drive,
            back: Some(board),
        }
    }

    pub(crate) fn loses(board: Record, send: Option<OutSend>, drive: Option<bool>) -> OutAct
        ensures { result ≡ loses board send drive }
    {
        let id = board.id;
        drop(board);
        OutAct {
            deed: Some(OutDeed::Loses(id)),
            send,
            drive,
            back: None,
        }
    }
}

/// TransportFinished, where the connection still stands.
pub(crate) fn finished(linked: bool, state: Transfer, id: BoardId) -> Option<OutSend>
    ensures { result ≡ finished linked state id }
{
    if linked {
        Some(OutSend::Finished { state, id })
    } else {
        None
    }
}
