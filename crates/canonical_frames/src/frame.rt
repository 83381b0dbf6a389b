ghost use Rattle.std.specs.Prelude.{◌≡◌, true, IsTrue, IfSome, codes};
ghost use Rattle.hermes_horizontal.specs.Rows.{columns_of};
ghost use Rattle.canonical_frames.specs.Frame.{IsCanonical};
ghost use Rattle.canonical_frames.specs.Pieces.{AreAssigned, IsOpened, IsRow, is_recognised};

use crate::form::Form;
use crate::front::behind;
use crate::row::{behind_attribute, behind_row};
use hermes_element::written_is_read;
use hermes_horizontal::{Attr, Kind};

/// Whether a frame is, byte for byte, what `write_horizontal` writes of some message of a known
/// name, so that it needn't be read to be written.
///
/// It takes no memory. `false` says nothing: a frame of an unknown name, of a ServiceDescription,
/// and one with a text that has an escape or characters beyond ASCII isn't recognised, canonical
/// or not.
pub fn is_canonical(frame: &[u8]) -> bool
    ensures { IsTrue result → IsCanonical frame.now }
{
    written_is_read();
    match behind_root(frame) {
        Some(child) => is_row(child),
        None => false,
    }
}

/// What is behind the start tag of the root and the `<` that follows it.
fn behind_root(frame: &[u8]) -> Option<&[u8]>
    ensures { IfSome result (λ child. IsOpened frame.now child.now) }
{
    let stamp = behind(b"<Hermes", frame)?;
    let end = behind_attribute(Attr::Timestamp, false, Form::Moment, stamp)?;
    let child = behind(b"><", end)?;
    Some(child)
}

/// Whether these bytes are the name of a message, its attributes, and the end of the frame.
fn is_row(child: &[u8]) -> bool
    ensures { IsTrue result → IsRow child.now }
{
    let kind = likely_kind(child);
    match behind(kind.text().as_bytes(), child) {
        Some(row) => ends_frame(kind, row),
        None => false,
    }
}

/// Whether these bytes are the attributes of a message and the end of the frame.
fn ends_frame(kind: Kind, row: &[u8]) -> bool
    ensures assigned { IsTrue result
        → AreAssigned (columns_of kind) row.now (codes "/></Hermes>") }
    ensures recognised { IsTrue result → is_recognised kind ≡ true }
{
    match behind_row(kind, row) {
        Some(end) => end == b"/></Hermes>".as_slice(),
        None => false,
    }
}

/// The one message whose name may stand at the front: a guess by a few letters, to be compared
/// with the whole name.
fn likely_kind(bytes: &[u8]) -> Kind {
    match bytes {
        [b'C', ..] => Kind::CheckAlive,
        [b'N', ..] => Kind::Notification,
        [b'M', ..] => Kind::MachineReady,
        [b'T', ..] => Kind::TransportFinished,
        [b'Q', ..] => Kind::QueryBoardInfo,
        [b'B', _, _, _, _, b'A', ..] => Kind::BoardAvailable,
        [b'B', ..] => Kind::BoardForecast,
        [b'R', _, _, _, _, _, b'B', ..] => Kind::RevokeBoardAvailable,
        [b'R', ..] => Kind::RevokeMachineReady,
        [b'S', b'e', b'n', ..] => Kind::SendBoardInfo,
        [b'S', _, b'a', ..] => Kind::StartTransport,
        [b'S', b't', ..] => Kind::StopTransport,
        _ => Kind::Other,
    }
}
