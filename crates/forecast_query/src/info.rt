ghost use Rattle.std.specs.Prelude.{◌≡◌, IfOk};
ghost use Rattle.forecast_query.specs.Info.{forecast_of, info_of};

use board_record::Record;
use hermes_horizontal::{Info, no_info};
use line_base::{Memory, copied_text};
use std::alloc::Global;

/// What is told of a board to a machine that asks for it: each field of its record.
pub fn info_of(alloc: Global, board: &Record) -> Result<Info, Memory>
    ensures { IfOk result (λ info. info ≡ info_of board.now) }
{
    Ok(Info {
        id: Some(board.id),
        created_by: Some(board.created_by.copy(alloc)?),
        quality: Some(board.quality),
        flip: Some(board.flip),
        product: copied_text(alloc, &board.product)?,
        top: copied_text(alloc, &board.top)?,
        bottom: copied_text(alloc, &board.bottom)?,
        length: board.length,
        width: board.width,
        thickness: board.thickness,
        speed: board.speed,
        top_clearance: board.top_clearance,
        bottom_clearance: board.bottom_clearance,
        weight: board.weight,
        order: copied_text(alloc, &board.order)?,
        batch: copied_text(alloc, &board.batch)?,
        subs: board.subs.copy()?,
    })
}

/// What is told of the next board before it is offered: its quality, its flip, its product and
/// its barcodes, and no id.
pub fn forecast_of(alloc: Global, board: &Record) -> Result<Info, Memory>
    ensures { IfOk result (λ info. info ≡ forecast_of board.now) }
{
    Ok(Info {
        quality: Some(board.quality),
        flip: Some(board.flip),
        product: copied_text(alloc, &board.product)?,
        top: copied_text(alloc, &board.top)?,
        bottom: copied_text(alloc, &board.bottom)?,
        ..no_info()
    })
}
