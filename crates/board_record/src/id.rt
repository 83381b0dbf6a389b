ghost use Rattle.std.specs.Prelude.{◌≡◌, ℕ, ◌++◌, Ok, Result, length, OnOk, OnErr};
ghost use Rattle.board_record.specs.BoardId.{read_id, id_text};

use line_base::Memory;
use std::fmt;
use std::marker::Model;
use uuid::Uuid;

/// A board's identity: a number of 128 bits, spelled as a UUID.
#[derive(Clone, Copy, PartialEq, Eq, PartialOrd, Ord, Hash)]
pub struct BoardId {
    number: u128,
}

impl Model for BoardId {
    ghost Value = { ℕ };

    ghost view = { λ id. id.number };

    ghost inverse = { λ number. record { number = number } };
}

/// The bytes are no identifier.
#[derive(Clone, Copy, Debug, PartialEq, Eq)]
pub struct BadId;

impl BoardId {
    /// The id that is this number.
    pub fn of(number: u128) -> BoardId
        ensures { result ≡ number }
    {
        BoardId { number }
    }

    /// The number of an id.
    pub fn number(self) -> u128
        ensures { result ≡ self }
    {
        self.number
    }

    /// Reads an id in any of the four forms of a UUID: 32 hexadecimal digits, hyphenated, in
    /// braces, or behind `urn:uuid:`. `BadId` where the bytes have none of them.
    pub fn read(bytes: &[u8]) -> Result<BoardId, BadId>
        ensures { result ≡ read_id bytes.now }
    {
        match Uuid::try_parse_ascii(bytes) {
            Ok(id) => Ok(BoardId {
                number: id.as_u128(),
            }),
            Err(_) => Err(BadId),
        }
    }

    /// Appends the 36 characters of an id, hyphenated, in lower case.
    pub fn write(self, to: &mut Vec<u8>) -> Result<(), Memory>
        ensures text { OnOk result (to.new.items ≡ to.old.items ++ id_text self) }
        ensures unchanged { OnErr result (to.new.items ≡ to.old.items) }
    {
        let mut room = Uuid::encode_buffer();
        let text = Uuid::from_u128(self.number())
            .hyphenated()
            .encode_lower(&mut room);
        match to.extend_from_slice(text.as_bytes()) {
            Ok(()) => Ok(()),
            Err(_) => Err(Memory),
        }
    }

    /// What is written reads back as the same id.
    pub fn reads_back(self)
        ensures length { length (id_text self) ≡ 36 }
        ensures same { read_id (id_text self) ≡ Ok self }
    {
        let _number = self.number();
    }
}

impl fmt::Display for BoardId {
    ghost use Rattle.std.specs.Prelude.{Some};

    ghost output = { λ id. Some (id_text id) };

    fn fmt<W: fmt::Write>(&self, f: &mut fmt::Formatter<W>) -> fmt::Result {
        let mut room = Uuid::encode_buffer();
        let text = Uuid::from_u128(self.number())
            .hyphenated()
            .encode_lower(&mut room);
        f.write_str(text)
    }
}

impl fmt::Debug for BoardId {
    fn fmt<W: fmt::Write>(&self, f: &mut fmt::Formatter<W>) -> fmt::Result {
        write!(f, "{self}")
    }
}
