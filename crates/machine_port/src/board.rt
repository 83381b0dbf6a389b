ghost use Rattle.std.specs.Prelude.{◌≡◌};
ghost use Rattle.std.specs.Option.{option_copied};
ghost use Rattle.machine_port.specs.Records.{board_seen, fields_of, first_alone, record_at};

use crate::numbers::{flag, flip_number, id_bytes, quality_number};
use board_record::Record;
use node_core::Node;

/// How many bytes a board has.
pub const BOARD_BYTES: u32 = 80;

/// The record of a board.
#[repr(C)]
#[derive(Clone, Copy)]
pub struct HermesBoard {
    /// How many bytes this has, 80.
    pub size: u32,
    /// The number of its quality.
    pub quality: u32,
    /// The number of the side that is up.
    pub flip: u32,
    /// 1 for each field that it has, by the field's number.
    pub has: [u32; 13],
    /// Its id, the most significant byte first.
    pub id: [u8; 16],
}

fn fields_of(board: &Record) -> [u32; 13]
    ensures { result ≡ fields_of board.now }
{
    [
        1,
        flag(board.product.is_some()),
        flag(board.top.is_some()),
        flag(board.bottom.is_some()),
        flag(board.length.is_some()),
        flag(board.width.is_some()),
        flag(board.thickness.is_some()),
        flag(board.speed.is_some()),
        flag(board.top_clearance.is_some()),
        flag(board.bottom_clearance.is_some()),
        flag(board.weight.is_some()),
        flag(board.order.is_some()),
        flag(board.batch.is_some()),
    ]
}

/// How a record is seen.
pub fn board_seen(board: &Record) -> HermesBoard
    ensures { result ≡ board_seen board.now }
{
    HermesBoard {
        size: BOARD_BYTES,
        quality: quality_number(board.quality),
        flip: flip_number(board.flip),
        has: fields_of(board),
        id: id_bytes(board.id),
    }
}

fn first_alone<'a>(index: u32, board: Option<&'a Record>) -> Option<&'a Record>
    ensures { option_copied result ≡ first_alone index (option_copied board.entry) }
{
    if index == 0 { board } else { None }
}

/// The record of this number at a place: 0 the kept ones, 1 that of the outlet, 2 that of the
/// intake. `None` where there is none, and of another place.
pub fn record_at(node: &Node, place: u32, index: u32) -> Option<&Record>
    ensures { option_copied result ≡ record_at place index node.now }
{
    match place {
        0 => node.kept().get(index as usize),
        1 => first_alone(index, node.outlet().holds()),
        2 => first_alone(index, node.intake().holds()),
        _ => None,
    }
}
