//! What is told of boards beside their handovers: the forecasts of the machine upstream, and the
//! answer to a question for a board by its barcodes.
#![tactic(auto)]

mod forecasts;
mod info;
mod query;

pub use forecasts::Forecasts;
pub use hermes_horizontal::no_info;
pub use info::{forecast_of, info_of};
pub use query::find;
