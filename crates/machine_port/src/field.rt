ghost use Rattle.std.specs.Prelude.{◌≡◌, ◌++◌, IfOk, IfSome, OnErr, OnOk, is_some, true};
ghost use Rattle.std.specs.Option.{option_copied};
ghost use Rattle.machine_port.specs.Records.{decimal_field, field_text, text_field};

use board_record::Record;
use line_base::{Decimal, Memory, Text};

fn text_field(board: &Record, field: u32) -> Option<&Text>
    ensures { option_copied result ≡ text_field field board.now }
{
    match field {
        0 => Some(&board.created_by),
        1 => board.product.as_ref(),
        2 => board.top.as_ref(),
        3 => board.bottom.as_ref(),
        11 => board.order.as_ref(),
        12 => board.batch.as_ref(),
        _ => None,
    }
}

fn decimal_field(board: &Record, field: u32) -> Option<Decimal>
    ensures { result ≡ decimal_field field board.now }
{
    match field {
        4 => board.length,
        5 => board.width,
        6 => board.thickness,
        7 => board.speed,
        8 => board.top_clearance,
        9 => board.bottom_clearance,
        10 => board.weight,
        _ => None,
    }
}

/// Appends the text of a field of a record, by the field's number, and answers whether the record
/// has it. `Memory` where there is no room for it.
pub fn write_field(board: &Record, field: u32, to: &mut Vec<u8>) -> Result<bool, Memory>
    ensures is { IfOk result (λ there. there ≡ is_some (field_text field board.now)) }
    ensures text { OnOk result (IfSome (field_text field board.now)
        (λ text. to.new.items ≡ to.old.items ++ text)) }
    ensures memory { OnErr result (is_some (field_text field board.now) ≡ true) }
{
    if let Some(decimal) = decimal_field(board, field) {
        decimal.write(to)?;
        return Ok(true);
    }
    match text_field(board, field) {
        Some(text) => {
            to.extend_from_slice(text.bytes())?;
            Ok(true)
        }
        None => Ok(false),
    }
}
