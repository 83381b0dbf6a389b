ghost use Rattle.std.specs.Prelude.{◌≡◌, Option};
ghost use Rattle.book_entry.specs.Kinds.{input_kind, kind_of, kind_tag, takes};

use crate::entry::OwnInput;

/// Which input it is, without its contents.
#[derive(Clone, Copy, Debug)]
pub enum InputKind {
    Nothing,
    Connect,
    Accepted,
    Second,
    Bytes,
    Notice,
    Tick,
    Shutdown,
    Fault,
    Will,
    Level,
    Insert,
    Remove,
    Replace,
    Mark,
    Forecast,
    Query,
    Supervise,
    Ask,
    Answer,
    Sub,
}

impl OwnInput {
    /// Which input it is.
    pub(crate) fn kind(&self) -> InputKind
        ensures { result ≡ input_kind self.now }
    {
        match self {
            OwnInput::Nothing => InputKind::Nothing,
            OwnInput::Connect => InputKind::Connect,
            OwnInput::Accepted => InputKind::Accepted,
            OwnInput::Second => InputKind::Second,
            OwnInput::Bytes(_, _) => InputKind::Bytes,
            OwnInput::Notice(_) => InputKind::Notice,
            OwnInput::Tick => InputKind::Tick,
            OwnInput::Shutdown => InputKind::Shutdown,
            OwnInput::Fault(_) => InputKind::Fault,
            OwnInput::Will(_, _) => InputKind::Will,
            OwnInput::Level(_, _) => InputKind::Level,
            OwnInput::Insert(_) => InputKind::Insert,
            OwnInput::Remove(_) => InputKind::Remove,
            OwnInput::Replace(_) => InputKind::Replace,
            OwnInput::Mark(_, _) => InputKind::Mark,
            OwnInput::Forecast => InputKind::Forecast,
            OwnInput::Query(_) => InputKind::Query,
            OwnInput::Supervise(_) => InputKind::Supervise,
            OwnInput::Ask(_) => InputKind::Ask,
            OwnInput::Answer { .. } => InputKind::Answer,
            OwnInput::Sub { .. } => InputKind::Sub,
        }
    }
}

impl InputKind {
    /// The byte by which an entry names it.
    pub(crate) fn tag(self) -> u8
        ensures { result ≡ kind_tag self }
    {
        match self {
            InputKind::Nothing => 0,
            InputKind::Connect => 1,
            InputKind::Accepted => 2,
            InputKind::Second => 3,
            InputKind::Bytes => 4,
            InputKind::Notice => 5,
            InputKind::Tick => 6,
            InputKind::Shutdown => 7,
            InputKind::Fault => 8,
            InputKind::Will => 9,
            InputKind::Level => 10,
            InputKind::Insert => 11,
            InputKind::Remove => 12,
            InputKind::Replace => 13,
            InputKind::Mark => 14,
            InputKind::Forecast => 15,
            InputKind::Query => 16,
            InputKind::Supervise => 17,
            InputKind::Ask => 18,
            InputKind::Answer => 19,
            InputKind::Sub => 21,
        }
    }

    /// Whether its fields can be so many bytes.
    pub(crate) fn takes(self, count: usize) -> bool
        ensures { result ≡ takes self count }
    {
        match self {
            InputKind::Nothing => count == 0,
            InputKind::Connect => count == 0,
            InputKind::Accepted => count == 0,
            InputKind::Second => count == 0,
            InputKind::Bytes => 5 <= count,
            InputKind::Notice => count == 1,
            InputKind::Tick => count == 0,
            InputKind::Shutdown => count == 0,
            InputKind::Fault => count == 1,
            InputKind::Will => count == 2,
            InputKind::Level => count == 2,
            InputKind::Insert => count == 1 || (3 <= count && count <= 1027),
            InputKind::Remove => count == 16,
            InputKind::Replace => count == 16,
            InputKind::Mark => count == 17,
            InputKind::Forecast => count == 0,
            InputKind::Query => 2 <= count && count <= 1026,
            InputKind::Supervise => count == 1,
            InputKind::Ask => 3 <= count && count <= 1031,
            InputKind::Answer => 10 <= count && count <= 1034,
            InputKind::Sub => count == 21 || (23 <= count && count <= 1047),
        }
    }
}

/// The input that a byte names, where it names one.
pub(crate) fn kind_of(tag: u8) -> Option<InputKind>
    ensures { result ≡ kind_of tag }
{
    match tag {
        0 => Some(InputKind::Nothing),
        1 => Some(InputKind::Connect),
        2 => Some(InputKind::Accepted),
        3 => Some(InputKind::Second),
        4 => Some(InputKind::Bytes),
        5 => Some(InputKind::Notice),
        6 => Some(InputKind::Tick),
        7 => Some(InputKind::Shutdown),
        8 => Some(InputKind::Fault),
        9 => Some(InputKind::Will),
        10 => Some(InputKind::Level),
        11 => Some(InputKind::Insert),
        12 => Some(InputKind::Remove),
        13 => Some(InputKind::Replace),
        14 => Some(InputKind::Mark),
        15 => Some(InputKind::Forecast),
        16 => Some(InputKind::Query),
        17 => Some(InputKind::Supervise),
        18 => Some(InputKind::Ask),
        19 => Some(InputKind::Answer),
        21 => Some(InputKind::Sub),
        _ => None,
    }
}
