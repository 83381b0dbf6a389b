ghost use Rattle.std.specs.Prelude.{◌≡◌, ◌++◌, OnOk, IfOk, slice_get};
ghost use Rattle.std.specs.Option.{option_copied};
ghost use Rattle.line_base.specs.declared.states.Side.TheVariants.{Exit};
ghost use Rattle.hermes_horizontal.specs.declared.message.Horizontal.TheVariants as bodies;
ghost use Rattle.node_core.specs.Told.{sends};
ghost use Rattle.node_core.specs.Information.{answer_to, asks_for, forecasts, forecasts_front, info_if};

use crate::act::Outputs;
use crate::desk::Desk;
use crate::halves::send;
use crate::lane::Body;
use board_record::Record;
use forecast_query::{find, forecast_of, info_of};
use hermes_horizontal::{Horizontal, Info, no_info};
use line_base::{Memory, Side, Text};
use std::alloc::Global;

/// What is told of the board at a place.
fn info_at(alloc: Global, kept: &[Record], place: usize) -> Result<Info, Memory>
    ensures { IfOk result (λ info. info ≡ info_if (slice_get kept.now place)) }
{
    match kept.get(place) {
        Some(board) => info_of(alloc, board),
        None => Ok(no_info()),
    }
}

/// What is told of the first board with these barcodes.
fn answer_to(
    alloc: Global,
    kept: &[Record],
    top: Option<&Text>,
    bottom: Option<&Text>,
) -> Result<Info, Memory>
    ensures { IfOk result
        (λ info. info ≡ answer_to kept.now (option_copied top.entry) (option_copied bottom.entry)) }
{
    match find(kept, top, bottom) {
        Some(place) => info_at(alloc, kept, place),
        None => Ok(no_info()),
    }
}

/// The front board is told of ahead, if there is one.
fn forecast(desk: &Desk, kept: &[Record], to: &mut Outputs) -> Result<(), Memory>
    ensures { OnOk result (to.new ≡ to.old ++ forecasts desk.now (slice_get kept.now 0)) }
{
    match kept.first() {
        Some(board) => {
            let info = forecast_of(desk.alloc(), board)?;
            send(desk, Side::Exit, Horizontal::BoardForecast(info), to)
        }
        None => Ok(()),
    }
}

impl Body {
    /// A question for a board is answered.
    pub(crate) fn answer(
        &self,
        desk: &Desk,
        top: Option<Text>,
        bottom: Option<Text>,
        to: &mut Outputs,
    ) -> Result<(), Memory>
        ensures { OnOk result
            (to.new ≡ to.old
            ++ sends desk.now Exit (bodies.SendBoardInfo (answer_to self.now.kept top bottom))) }
    {
        let info = answer_to(
            desk.alloc(),
            self.kept.list(),
            top.as_ref(),
            bottom.as_ref(),
        )?;
        send(desk, Side::Exit, Horizontal::SendBoardInfo(info), to)
    }

    /// The downstream neighbour is told what board comes next.
    pub(crate) fn forecast_front(&self, desk: &Desk, to: &mut Outputs) -> Result<(), Memory>
        ensures { OnOk result (to.new ≡ to.old ++ (forecasts_front desk.now self.now).acts) }
    {
        forecast(desk, self.kept.list(), to)
    }

    /// The upstream neighbour is asked for the board with this barcode on its top side.
    pub(crate) fn ask_for(&self, desk: &Desk, barcode: Text, to: &mut Outputs) -> Result<(), Memory>
        ensures { OnOk result (to.new ≡ to.old ++ (asks_for desk.now barcode self.now).acts) }
    {
        let what = Horizontal::QueryBoardInfo {
            top: Some(barcode),
            bottom: None,
        };
        send(desk, Side::Entry, what, to)
    }
}
