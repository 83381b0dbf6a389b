use board_record::{BoardId, Record};
use hermes_horizontal::Message;
use line_base::{Text, Transfer};

/// What a frame means.
#[derive(Drop)]
pub enum Word {
    /// It spells this message.
    Says(Message),
    /// It spells none; the breach has this text.
    Wrong(Text),
}

/// What stands at the front of the bytes that wait.
#[derive(Drop)]
pub enum Next {
    /// A frame, that means this.
    Word(Word),
    /// No frame, and room for more bytes.
    More,
    /// As many bytes as a message may have, and no end of one.
    TooLong,
}

/// What the exit makes of a message.
#[derive(Drop)]
pub enum ExitWord {
    Ready,
    Unready,
    Start(BoardId),
    Stop(Transfer, BoardId),
    /// It asks for the board with these barcodes on its top and its bottom side.
    Query(Option<Text>, Option<Text>),
    /// Nothing is done.
    Nothing,
}

/// What the entry makes of a message.
#[derive(Drop)]
pub enum EntryWord {
    Available(Record),
    Revoked,
    Finished(Transfer, BoardId),
    /// Nothing is done.
    Nothing,
}
