ghost use Rattle.std.specs.Prelude.{◌≡◌, ◌≤◌, ◌+◌, ◌*◌, IfOk, decimal, length};
ghost use Rattle.board_record.specs.SubBoards.{spelled_byte, spelled_size, barcode_size, sub_size};

use itoa::Buffer;
use line_base::{Memory, Quality, Text, copied_text};
use std::alloc::Global;

/// One circuit of a panel that carries several.
#[derive(Debug, PartialEq, Eq, Drop)]
pub struct SubBoard {
    /// Its place on the panel.
    pub pos: u32,
    pub barcode: Option<Text>,
    pub state: Quality,
}

impl SubBoard {
    /// An equal sub board of its own.
    pub fn copy(&self, alloc: Global) -> Result<SubBoard, Memory>
        ensures { IfOk result (λ copy. copy ≡ self.now) }
    {
        Ok(SubBoard {
            pos: self.pos,
            barcode: copied_text(alloc, &self.barcode)?,
            state: self.state,
        })
    }

    /// How many bytes its element takes in a message.
    pub fn size(&self) -> usize
        ensures size { result ≡ sub_size self.now }
        ensures bounded { result ≤ 6209 }
    {
        element_size(self.pos, &self.barcode)
    }
}

/// How many bytes the element of a sub board with this place and this barcode takes.
pub(crate) fn element_size(pos: u32, barcode: &Option<Text>) -> usize
    ensures size { result ≡ 19 + length (decimal pos) + barcode_size barcode.now }
    ensures bounded { result ≤ 6209 }
{
    let mut room = Buffer::new();
    19 + room.format(pos).len() + barcode_size(barcode)
}

fn barcode_size(barcode: &Option<Text>) -> usize
    ensures size { result ≡ barcode_size barcode.now }
    ensures bounded { result ≤ 6150 }
{
    match barcode {
        Some(text) => 6 + text_size(text),
        None => 0,
    }
}

fn text_size(text: &Text) -> usize
    ensures size { result ≡ spelled_size text.now }
    ensures bounded { result ≤ 6144 }
{
    spelled_size(text.bytes())
}

fn spelled_size(bytes: &[u8]) -> usize
    requires { length bytes.now ≤ 1024 }
    ensures size { result ≡ spelled_size bytes.now }
    ensures bounded { result ≤ 6 * length bytes.now }
{
    let mut size = 0;
    for byte in bytes {
        size += spelled_byte(*byte);
    }
    size
}

fn spelled_byte(byte: u8) -> usize
    ensures size { result ≡ spelled_byte byte }
    ensures bounded { result ≤ 6 }
{
    match byte {
        b'&' => 5,
        b'<' => 4,
        b'>' => 4,
        b'"' => 6,
        b'\n' => 5,
        b'\r' => 5,
        b'\t' => 4,
        _ => 1,
    }
}
