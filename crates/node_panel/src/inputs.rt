//! What a line of a panel gives to its machine.
ghost use Rattle.std.specs.Prelude.{◌≡◌};
ghost use Rattle.node_panel.specs.Inputs.{input_of};

use crate::line::PanelLine;
use node_core::Input;

/// The input that a line gives to the machine. A line `sense` gives none: its event is read in a
/// step without one.
pub fn input_of(asked: PanelLine) -> Input<'static>
    ensures { result ≡ input_of asked }
{
    match asked {
        PanelLine::Insert { barcode } => Input::Insert(barcode),
        PanelLine::Remove { id } => Input::Remove(id),
        PanelLine::Replace { id } => Input::Replace(id),
        PanelLine::Mark { id, quality } => Input::Mark(id, quality),
        PanelLine::Sub { id, pos, barcode } => Input::Sub { id, pos, barcode },
        PanelLine::Hold { side } => Input::Will(side, false),
        PanelLine::Go { side } => Input::Will(side, true),
        PanelLine::Shutdown => Input::Shutdown,
        PanelLine::Tick => Input::Tick,
        PanelLine::Signal { line, on } => Input::Level(line, on),
        PanelLine::Forecast => Input::Forecast,
        PanelLine::Query { barcode } => Input::Query(barcode),
        PanelLine::Ask { question } => Input::Ask(question),
        PanelLine::Fault { side } => Input::Fault(side),
        PanelLine::Blank
        | PanelLine::Connect
        | PanelLine::Sense { .. }
        | PanelLine::Show
        | PanelLine::End => Input::Nothing,
    }
}
