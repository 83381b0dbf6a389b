ghost use Rattle.std.specs.Prelude.{◌≡◌};
ghost use Rattle.line_status.specs.Status.{exit_number};

use line_check::CheckWhy;
use line_script::LineWhy;

/// Why an input is refused.
#[derive(Clone, Copy, Debug, PartialEq, Eq)]
pub enum InputWhy {
    /// A line of a script is refused.
    Line(LineWhy),
    /// A stream has more than 1,073,741,824 bytes.
    TooLarge,
}

/// How a call of the program ended.
#[derive(Clone, Copy, Debug, PartialEq, Eq)]
pub enum Status {
    /// All was read and all was written.
    Done,
    /// The words are none of the program's forms.
    Usage,
    /// The script is refused at this line, counted from 1, for this reason.
    ScriptRefused { line: u64, why: InputWhy },
    /// The source failed.
    ReadFault,
    /// The sink failed.
    WriteFault,
    /// Memory was wanting.
    Memory,
    /// All was read and all was written, but a line of the script told what was not so.
    Unvouched,
    /// The log is refuted at this line, counted from 1, for this reason.
    Refuted { line: u64, why: CheckWhy },
}

impl Status {
    /// The number with which the program ends.
    pub fn exit_number(&self) -> u8
        ensures { result ≡ exit_number self.now }
    {
        match self {
            Status::Done => 0,
            Status::Usage => 2,
            Status::ScriptRefused { .. } => 3,
            Status::ReadFault => 4,
            Status::WriteFault => 5,
            Status::Memory => 6,
            Status::Unvouched => 7,
            Status::Refuted { .. } => 8,
        }
    }
}
