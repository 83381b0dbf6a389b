//! The ids of the cases: `1.2` is the second that machine 1 made.

use board_record::BoardId;
use std::io;
use std::io::Write;

/// The id of a word; any other word means the first of machine 9.
pub fn id_of(word: &str) -> BoardId {
    BoardId::of(match word {
        "1.1" => 0x0000_0001_0000_8000_8000_0000_0000_0001,
        "1.2" => 0x0000_0001_0000_8000_8000_0000_0000_0002,
        "1.3" => 0x0000_0001_0000_8000_8000_0000_0000_0003,
        "2.1" => 0x0000_0002_0000_8000_8000_0000_0000_0001,
        "2.2" => 0x0000_0002_0000_8000_8000_0000_0000_0002,
        "2.3" => 0x0000_0002_0000_8000_8000_0000_0000_0003,
        "9.2" => 0x0000_0009_0000_8000_8000_0000_0000_0002,
        _ => 0x0000_0009_0000_8000_8000_0000_0000_0001,
    })
}

/// Appends the word of an id.
pub fn tell(id: BoardId, to: &mut Vec<u8>) -> io::Result<()> {
    let machine = id.number() >> 96;
    let count = id.number() & 0xFFFF_FFFF_FFFF;
    write!(to, "{machine}.{count}")
}
