ghost use Rattle.std.specs.Prelude.{◌≡◌, true};
ghost use Rattle.line_base.specs.PlainText.{is_plain_text};
ghost use Rattle.supervisory_core.specs.Told.{answer_error_text};

use line_base::{Code, Severity};

/// Why no question was taken.
#[derive(Clone, Copy, Debug, PartialEq, Eq)]
pub enum AskError {
    /// 256 questions have no answer yet, or the numbers are used up.
    QueriesFull,
    /// Memory was wanting.
    Memory,
}

/// Why no answer was taken.
#[derive(Clone, Copy, Debug, PartialEq, Eq)]
pub enum AnswerError {
    /// No question of this number was asked.
    Unknown(u64),
    /// The question of this number was answered before.
    Answered(u64),
}

impl AnswerError {
    /// The code of the Notification that tells the supervisor of it: 0, unspecific.
    pub fn code(self) -> Code
        ensures { result ≡ record { number = 0 } }
    {
        Code { number: 0 }
    }

    /// How grave it is: a warning. The session goes on.
    pub fn severity(self) -> Severity
        ensures { result ≡ Severity.Warning }
    {
        Severity::Warning
    }

    /// The Notification's description.
    pub fn text(self) -> &'static str
        ensures text { result.now ≡ answer_error_text self }
        ensures plain { is_plain_text result.now ≡ true }
    {
        match self {
            AnswerError::Unknown(_) => "unknown query",
            AnswerError::Answered(_) => "answered",
        }
    }
}
