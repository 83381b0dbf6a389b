ghost use Rattle.std.specs.Prelude.{◌≡◌};
ghost use Rattle.hermes_element.specs.Machine.{stop_of};
ghost use Rattle.hermes_element.specs.declared.place.Place.TheVariants as places;

use crate::place::{Place, step};

/// The index at which the bytes leave the plain form, if they do.
pub(crate) fn shape_stop(bytes: &[u8]) -> Option<usize>
    ensures { result ≡ stop_of places.Start 0 0 bytes.now }
{
    let mut place = Place::Start;
    let mut depth: usize = 0;
    for (at, byte) in bytes.iter().enumerate() {
        match step(place, depth, *byte) {
            Some((next, open)) => {
                place = next;
                depth = open;
            }
            None => return Some(at),
        }
    }
    match place {
        Place::End => None,
        _ => Some(bytes.len()),
    }
}
