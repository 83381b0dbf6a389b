ghost use Rattle.std.specs.Prelude.{◌≡◌, ◌<◌, ◌≤◌, ◌^◌, ◌+◌, ◌-◌, ◌∷◌, ◌++◌, [], IfOk, OnOk, drop, length};
ghost use Rattle.std.specs.Str.Lines.{lines};
ghost use Rattle.standings.specs.Deeds.{gap_of};
ghost use Rattle.board_traces.specs.Courses.{after_deed, after_line, courses_of, with_beside, with_named};
ghost use Rattle.board_traces.specs.Held.{lines_before};
ghost use Rattle.board_traces.specs.Texts.{boards_text, count_of, one_if};

use crate::board::Board;
use crate::deed_line::deed_of_line;
use crate::line_before::next_before;
use crate::texts::write_board;
use crate::way::{Sort, is_of};
use board_record::BoardId;
use indexmap::IndexMap;
use line_base::Memory;
use standings::Deed;
use std::alloc::Global;
use std::marker::Model;

/// The boards that deeds named, in the order of their coming, each with its course.
#[derive(Drop)]
pub struct Boards {
    alloc: Global,
    map: IndexMap<BoardId, Board>,
}

impl Model for Boards {
    ghost use Rattle.board_traces.specs.Courses.{Courses};

    ghost Value = { Courses };

    ghost view = { λ boards. boards.map.entries };
}

/// The boards of a log's lines, and how many those are.
#[derive(Drop)]
pub struct Read {
    pub boards: Boards,
    pub lines: u64,
}

/// Reads the boards of the lines of a log before a line of it, or of all. `Memory` where there is
/// none for them.
pub fn read_boards(alloc: Global, log: &[u8], end: Option<u64>) -> Result<Read, Memory>
    ensures boards { IfOk result
        (λ read. read.boards ≡ courses_of (lines_before end 0 (lines log.now))) }
    ensures counted { IfOk result
        (λ read. read.lines ≡ length (lines_before end 0 (lines log.now))) }
{
    let mut boards = Boards::new(alloc);
    let mut done: u64 = 0;
    let mut rest = log;
    while let Some((line, others)) = next_before(rest, done, end) {
        done += 1;
        boards.note_line(done, line)?;
        rest = others;
    }
    Ok(Read {
        boards,
        lines: done,
    })
}

impl Boards {
    fn new(alloc: Global) -> Boards
        ensures { result ≡ [] }
    {
        Boards {
            alloc,
            map: IndexMap::new(alloc),
        }
    }

    /// Notes the deed of a line, if it says one.
    fn note_line(&mut self, number: u64, line: &[u8]) -> Result<(), Memory>
        ensures { OnOk result (self.new ≡ after_line number line.now self.old) }
    {
        match deed_of_line(line) {
            Some(deed) => self.note(number, &deed),
            None => Ok(()),
        }
    }

    fn note(&mut self, line: u64, deed: &Deed) -> Result<(), Memory>
        requires { gap_of deed.now < 2 ^ 32 - 1 }
        ensures { OnOk result (self.new ≡ after_deed line deed.now self.old) }
    {
        self.note_beside(line, deed, deed.named_beside())?;
        self.note_id(line, deed, deed.named())
    }

    fn note_beside(&mut self, line: u64, deed: &Deed, old: Option<BoardId>) -> Result<(), Memory>
        requires { gap_of deed.now < 2 ^ 32 - 1 }
        ensures { OnOk result (self.new ≡ with_beside line deed.now old self.old) }
    {
        match old {
            Some(old) if old != deed.named() => self.note_id(line, deed, old),
            _ => Ok(()),
        }
    }

    fn note_id(&mut self, line: u64, deed: &Deed, id: BoardId) -> Result<(), Memory>
        requires { gap_of deed.now < 2 ^ 32 - 1 }
        ensures { OnOk result (self.new ≡ with_named line deed.now id self.old) }
    {
        let board = Board::after(self.alloc, self.map.get(&id), line, deed, id)?;
        match self.map.insert(id, board) {
            Ok(_) => Ok(()),
            Err(_) => Err(Memory),
        }
    }

    /// How many boards there are.
    pub fn len(&self) -> usize
        ensures { result ≡ length self.now }
    {
        self.map.len()
    }

    /// The board at a place.
    fn at(&self, place: usize) -> (BoardId, &Board)
        requires { place < length self.now }
        ensures { drop place self.now
            ≡ (result.0, result.1.now) ∷ drop (place + 1) self.now }
    {
        let (id, board) = self.map.get_index(place).unwrap();
        (*id, board)
    }

    /// How many boards are of a sort.
    pub fn count(&self, sort: Sort) -> u64
        ensures { result ≡ count_of sort self.now }
    {
        let all = self.len();
        let mut count: u64 = 0;
        let mut place = 0;
        while place < all {
            let (_id, board) = self.at(place);
            count += one_if(is_of(sort, board.marks.as_slice(), board.last));
            place += 1;
        }
        count
    }

    /// Appends the line of each board.
    pub fn write(&self, to: &mut Vec<u8>) -> Result<(), Memory>
        ensures { OnOk result (to.new.items ≡ to.old.items ++ boards_text self.now) }
    {
        let all = self.len();
        let mut place = 0;
        while place < all {
            let (id, board) = self.at(place);
            write_board(id, board, to)?;
            place += 1;
        }
        Ok(())
    }
}

fn one_if(test: bool) -> u64
    ensures one { result ≡ one_if test }
    ensures most { result ≤ 1 }
{
    if test { 1 } else { 0 }
}
