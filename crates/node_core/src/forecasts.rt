ghost use Rattle.std.specs.Prelude.{◌≡◌, OnOk};
ghost use Rattle.node_core.specs.Forecasts.{forecasts_act, forecasts_after, forecasts_heard};

use crate::act::Act;
use forecast_query::Forecasts;
use hermes_horizontal::Horizontal;
use line_base::{Memory, Side};
use std::alloc::Global;

fn note_heard(alloc: Global, what: &Horizontal, kept: &mut Forecasts) -> Result<(), Memory>
    ensures { OnOk result (kept.new ≡ forecasts_heard kept.old what.now) }
{
    match what {
        Horizontal::BoardForecast(info) => {
            let info = info.copy(alloc)?;
            kept.add(info)
        }
        _ => Ok(()),
    }
}

fn note_act(alloc: Global, act: &Act, kept: &mut Forecasts) -> Result<(), Memory>
    ensures { OnOk result (kept.new ≡ forecasts_act kept.old act.now) }
{
    match act {
        Act::Connects => {
            kept.clear();
            Ok(())
        }
        Act::Hears(Side::Entry, message) => note_heard(alloc, message.body.what(), kept),
        _ => Ok(()),
    }
}

/// The forecasts that some acts heard are kept, and those of an earlier connection are forgotten.
pub(crate) fn note_forecasts(
    alloc: Global,
    acts: &[Act],
    kept: &mut Forecasts,
) -> Result<(), Memory>
    ensures { OnOk result (kept.new ≡ forecasts_after kept.old acts.now) }
{
    for act in acts {
        note_act(alloc, act, kept)?;
    }
    Ok(())
}
