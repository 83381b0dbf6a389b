//! What the calls answer: 0, a reason above it, or an error below it.

ghost use Rattle.std.specs.Prelude.{◌≡◌};
ghost use Rattle.hermes_machine.specs.Numbers.{number_of_no, number_of_unasked, number_of_why};

use line_script::LineWhy;
use machine_text::NotAsked;
use node_core::No;

/// It is done.
pub const DONE: i32 = 0;

/// The handle holds no machine.
pub const EMPTY: i32 = -1;

/// Memory was wanting.
pub const MEMORY: i32 = -2;

/// A size or a number is none that the call takes.
pub const BAD_INPUT: i32 = -3;

/// The bytes are no text, or not of as many bytes as the call takes.
pub const BAD_TEXT: i32 = -4;

/// The handle holds a machine already.
pub const NOT_EMPTY: i32 = -5;

/// There is no such act, record, field or order; or the line asks for nothing.
pub const NONE: i32 = -6;

/// The number of a reason why an input can't be taken now.
pub fn number_of_no(why: No) -> i32
    ensures { result ≡ number_of_no why }
{
    match why {
        No::IntakeOpen => 1,
        No::Full => 2,
        No::IdsUsedUp => 3,
        No::NotKept => 4,
        No::Offered => 5,
        No::Same => 6,
        No::Connected => 7,
        No::IntakeUnsettled => 8,
        No::NotConnected => 9,
        No::NoHandover => 10,
        No::Bridge => 11,
        No::NotABridge => 12,
        No::NotStanding => 13,
        No::NotSupported => 14,
        No::NothingKept => 15,
        No::NotSupervised => 16,
        No::QueriesFull => 17,
        No::UnknownQuery => 18,
        No::Answered(_) => 19,
        No::SubsFull => 20,
        No::NoLane => 21,
        No::WasOffered => 22,
    }
}

/// The number of a reason why a line asks for no step.
pub fn number_of_unasked(why: NotAsked) -> i32
    ensures { result ≡ number_of_unasked why }
{
    match why {
        NotAsked::Refused(why) => number_of_why(why),
        NotAsked::Blank => NONE,
        NotAsked::Outside => BAD_TEXT,
    }
}

/// The number of a reason why a panel refuses a line.
fn number_of_why(why: LineWhy) -> i32
    ensures { result ≡ number_of_why why }
{
    match why {
        LineWhy::LongLine => -7,
        LineWhy::TooManyLines => -8,
        LineWhy::NotText => -9,
        LineWhy::UnknownWord => -10,
        LineWhy::WrongCount => -11,
        LineWhy::BadNumber => -12,
        LineWhy::BadSide => -13,
        LineWhy::BadId => -14,
        LineWhy::BadWord => -15,
    }
}
