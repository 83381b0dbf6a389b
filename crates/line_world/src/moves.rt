ghost use Rattle.std.specs.Prelude.{◌≡◌};
ghost use Rattle.line_world.specs.Moves.{move_word, no_text};

use std::fmt;
use thiserror::Error;

/// What may happen to the board at a gap.
#[derive(Clone, Copy, Debug, PartialEq, Eq, Hash)]
pub enum Move {
    /// The front board of the upstream machine comes into the gap.
    Begin,
    /// It leaves the upstream machine.
    Left,
    /// The downstream machine's drive takes it in.
    Enter,
    /// It goes back into the upstream machine.
    Back,
    /// It is pushed into the downstream machine by hand.
    HandIn,
    /// It is taken off the floor by hand.
    Take,
}

/// Why a move can't be.
#[derive(Clone, Copy, Debug, PartialEq, Eq, Hash, Error)]
pub enum MoveNo {
    NoGap,
    ExitDriveOff,
    GapNotFree,
    NothingThere,
    NotBegun,
    EntryDriveOff,
    NotLeft,
    ExitDriveOn,
    EntryDriveOn,
}

/// Why a move was not done.
#[derive(Clone, Copy, Debug, PartialEq, Eq)]
pub enum MoveError {
    /// The first reason against it that holds.
    No(MoveNo),
    Memory,
}

impl Move {
    /// The word for the move in scripts and reports.
    pub fn word(self) -> &'static str
        ensures { result.now ≡ move_word self }
    {
        match self {
            Move::Begin => "begin",
            Move::Left => "left",
            Move::Enter => "in",
            Move::Back => "back",
            Move::HandIn => "hand-in",
            Move::Take => "take",
        }
    }
}

impl MoveNo {
    /// The reason in words.
    pub fn text(self) -> &'static str
        ensures { result.now ≡ no_text self }
    {
        match self {
            MoveNo::NoGap => "no gap",
            MoveNo::ExitDriveOff => "exit drive off",
            MoveNo::GapNotFree => "gap not free",
            MoveNo::NothingThere => "nothing there",
            MoveNo::NotBegun => "not begun",
            MoveNo::EntryDriveOff => "entry drive off",
            MoveNo::NotLeft => "not left",
            MoveNo::ExitDriveOn => "exit drive on",
            MoveNo::EntryDriveOn => "entry drive on",
        }
    }
}

impl fmt::Display for Move {
    ghost use Rattle.std.specs.Prelude.{Some};
    ghost use Rattle.line_world.specs.Moves.{move_word};

    ghost output = { λ step. Some (move_word step) };

    fn fmt<W: fmt::Write>(&self, f: &mut fmt::Formatter<W>) -> fmt::Result {
        f.write_str(self.word())
    }
}

impl fmt::Display for MoveNo {
    ghost use Rattle.std.specs.Prelude.{Some};
    ghost use Rattle.line_world.specs.Moves.{no_text};

    ghost output = { λ why. Some (no_text why) };

    fn fmt<W: fmt::Write>(&self, f: &mut fmt::Formatter<W>) -> fmt::Result {
        f.write_str(self.text())
    }
}
