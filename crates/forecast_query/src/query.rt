ghost use Rattle.std.specs.Prelude.{◌≡◌, IfSome, IfNone};
ghost use Rattle.std.specs.Option.{option_copied};
ghost use Rattle.forecast_query.specs.Find.{IsFirstMatch, MatchesNone, first_match, has_asked, place_from};

use board_record::Record;
use line_base::Text;

/// The place of the first board from the front that has each barcode that is asked for, on its
/// side. `None` exactly where no board has, or nothing is asked for.
pub fn find(kept: &[Record], top: Option<&Text>, bottom: Option<&Text>) -> Option<usize>
    ensures answer { result ≡ first_match kept.now (option_copied top.entry) (option_copied bottom.entry) }
    ensures first { IfSome result
        (λ place.
        IsFirstMatch kept.now (option_copied top.entry) (option_copied bottom.entry) place) }
    ensures none { IfNone result
        (MatchesNone kept.now (option_copied top.entry) (option_copied bottom.entry)) }
{
    first_asked(kept, top, bottom)
}

fn first_asked(kept: &[Record], top: Option<&Text>, bottom: Option<&Text>) -> Option<usize>
    ensures { result ≡ first_match kept.now (option_copied top.entry)
        (option_copied bottom.entry) }
{
    if top.is_none() && bottom.is_none() {
        return None;
    }
    first_with(kept, top, bottom)
}

/// The place of the first board that has what is asked for, if something is.
fn first_with(kept: &[Record], top: Option<&Text>, bottom: Option<&Text>) -> Option<usize>
    ensures { result ≡ place_from 0 kept.now (option_copied top.entry)
        (option_copied bottom.entry) }
{
    for (place, board) in kept.iter().enumerate() {
        if has_barcode(&board.top, top) && has_barcode(&board.bottom, bottom) {
            return Some(place);
        }
    }
    None
}

/// Whether a side has the barcode that is asked for, if one is.
fn has_barcode(barcode: &Option<Text>, asked: Option<&Text>) -> bool
    ensures { result ≡ has_asked (option_copied asked.entry) barcode.now }
{
    match (asked, barcode) {
        (None, _) => true,
        (Some(_), None) => false,
        (Some(asked), Some(barcode)) => *asked == *barcode,
    }
}
