//! What messages tell of a board, and how it is written.

ghost use Rattle.std.specs.Prelude.{◌≡◌, Bool, OnOk};
ghost use Rattle.hermes_element.specs.Standing.{StillStands};
ghost use Rattle.hermes_horizontal.specs.Boards.{board_parts};
ghost use Rattle.hermes_horizontal.specs.Canonical.{assigned};
ghost use Rattle.hermes_horizontal.specs.Parts.{info_of, info_parts};
ghost use Rattle.hermes_horizontal.specs.Rows.{board_columns};

use crate::assign::{
    append_optional_decimal, append_optional_id, append_optional_number, append_optional_text,
};
use crate::attr::Attr;
use crate::message::Info;
use crate::numbers::{optional_flip_number, optional_quality_number};
use board_record::{BoardId, Record};
use line_base::{Decimal, Flip, Memory, Quality, Text};

/// What is told of a board, lent by a record or by board information.
#[derive(Clone, Copy)]
pub struct Board<'a> {
    id: Option<BoardId>,
    created_by: Option<&'a Text>,
    quality: Option<Quality>,
    flip: Option<Flip>,
    product: Option<&'a Text>,
    top: Option<&'a Text>,
    bottom: Option<&'a Text>,
    length: Option<Decimal>,
    width: Option<Decimal>,
    thickness: Option<Decimal>,
    speed: Option<Decimal>,
    top_clearance: Option<Decimal>,
    bottom_clearance: Option<Decimal>,
    weight: Option<Decimal>,
    order: Option<&'a Text>,
    batch: Option<&'a Text>,
}

impl Board<'_> {
    pub fn of_record(board: &Record) -> Board<'_>
        ensures { board_parts result ≡ info_parts (info_of board.now) }
    {
        Board {
            id: Some(board.id),
            created_by: Some(&board.created_by),
            quality: Some(board.quality),
            flip: Some(board.flip),
            product: board.product.as_ref(),
            top: board.top.as_ref(),
            bottom: board.bottom.as_ref(),
            length: board.length,
            width: board.width,
            thickness: board.thickness,
            speed: board.speed,
            top_clearance: board.top_clearance,
            bottom_clearance: board.bottom_clearance,
            weight: board.weight,
            order: board.order.as_ref(),
            batch: board.batch.as_ref(),
        }
    }

    pub fn of_info(info: &Info) -> Board<'_>
        ensures { board_parts result ≡ info_parts info.now }
    {
        Board {
            id: info.id,
            created_by: info.created_by.as_ref(),
            quality: info.quality,
            flip: info.flip,
            product: info.product.as_ref(),
            top: info.top.as_ref(),
            bottom: info.bottom.as_ref(),
            length: info.length,
            width: info.width,
            thickness: info.thickness,
            speed: info.speed,
            top_clearance: info.top_clearance,
            bottom_clearance: info.bottom_clearance,
            weight: info.weight,
            order: info.order.as_ref(),
            batch: info.batch.as_ref(),
        }
    }
}

/// Appends the attributes that tell of a board.
#[inline(always)]
pub fn append_board(board: &Board<'_>, to: &mut Vec<u8>) -> Result<(), Memory>
    ensures kept { StillStands to.old.items to.new.items }
    ensures written { (whole : Bool)
        → OnOk result
        (to.new.items ≡ assigned to.old.items (board_columns whole) (board_parts board.now)) }
{
    let quality = optional_quality_number(board.quality);
    let flip = optional_flip_number(board.flip);
    append_optional_id(Attr::BoardId, board.id, to)?;
    append_optional_text(Attr::BoardIdCreatedBy, board.created_by, to)?;
    append_optional_number(Attr::FailedBoard, quality, to)?;
    append_optional_number(Attr::FlippedBoard, flip, to)?;
    append_optional_text(Attr::ProductTypeId, board.product, to)?;
    append_optional_text(Attr::TopBarcode, board.top, to)?;
    append_optional_text(Attr::BottomBarcode, board.bottom, to)?;
    append_optional_decimal(Attr::Length, board.length, to)?;
    append_optional_decimal(Attr::Width, board.width, to)?;
    append_optional_decimal(Attr::Thickness, board.thickness, to)?;
    append_optional_decimal(Attr::ConveyorSpeed, board.speed, to)?;
    append_optional_decimal(Attr::TopClearanceHeight, board.top_clearance, to)?;
    append_optional_decimal(Attr::BottomClearanceHeight, board.bottom_clearance, to)?;
    append_optional_decimal(Attr::Weight, board.weight, to)?;
    append_optional_text(Attr::WorkOrderId, board.order, to)?;
    append_optional_text(Attr::BatchId, board.batch, to)
}
