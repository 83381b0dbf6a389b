use std::fmt;
use thiserror::Error;

/// Why a log is refused, in the order in which the reasons are tested.
#[derive(Clone, Copy, Debug, PartialEq, Eq, Error)]
pub enum CheckWhy {
    /// The line has more than 4,096 bytes.
    Long,
    /// It is the 1,000,001st.
    Lines,
    /// It is not a machine, a turn and a text; or its text begins as a deed and is none.
    Form,
    /// Its turn is less than an earlier one of its machine.
    Turn,
    /// Its deed is not legal in the ledger of the deeds before it.
    Legal,
    /// It is the last of its group, and behind it some id has marks and no standing.
    Standing,
}

impl fmt::Display for CheckWhy {
    ghost use Rattle.std.specs.Prelude.{Some};
    ghost use Rattle.line_check.specs.Texts.{why_text};

    ghost output = { λ why. Some (why_text why) };

    fn fmt<W: fmt::Write>(&self, f: &mut fmt::Formatter<W>) -> fmt::Result {
        match self {
            CheckWhy::Long => f.write_str("long line"),
            CheckWhy::Lines => f.write_str("too many lines"),
            CheckWhy::Form => f.write_str("form"),
            CheckWhy::Turn => f.write_str("turn"),
            CheckWhy::Legal => f.write_str("not legal"),
            CheckWhy::Standing => f.write_str("no standing"),
        }
    }
}

/// What a checker answers in place of going on.
#[derive(Clone, Copy, Debug, PartialEq, Eq)]
pub enum CheckError {
    /// The first reason against the log, at this line, counted from 1.
    No { line: u64, why: CheckWhy },
    /// Memory was wanting.
    Memory,
}

/// What a log has that nothing is against.
#[derive(Clone, Copy, Debug, PartialEq, Eq)]
pub struct Counts {
    pub lines: u64,
    /// The ids that have a mark at its end.
    pub boards: u64,
}
