ghost use Rattle.std.specs.Prelude.{◌≡◌, None};

use crate::clock::Clock;
use line_base::Moment;
use std::time::{Clock as HostTime, SystemTime};

/// The last moment that a `Moment` can be, in milliseconds.
const LAST_MILLIS: u128 = 253_402_300_799_999;

/// The host's clock, in the civil time of Greenwich. It tells nothing of its moments.
///
/// Where the host's clock can't be read, or is out of the range of a moment, it answers the moment
/// that it gave last, at first 1970-01-01T00:00:00.000.
#[derive(Drop)]
pub struct HostClock<R: HostTime> {
    host: R,
    last: Moment,
    faults: u64,
}

impl<R: HostTime> HostClock<R> {
    /// A clock that has given no moment yet.
    pub fn new(host: R) -> HostClock<R>
        ensures { result.faults ≡ 0 }
    {
        HostClock {
            host,
            last: Moment::of_millis(0),
            faults: 0,
        }
    }
}

impl<R: HostTime> Clock for HostClock<R> {
    ghost moment = { λ _. None };

    ghost faults = { λ clock. clock.faults };

    fn now(&mut self) -> Moment {
        match moment_of(&self.host) {
            Some(moment) => self.last = moment,
            None => self.faults = self.faults.saturating_add(1),
        }
        self.last
    }
}

/// The moment that the host's clock shows.
fn moment_of(host: &impl HostTime) -> Option<Moment> {
    let now = SystemTime::now(host).ok()?;
    let since = now.duration_since(SystemTime::UNIX_EPOCH).ok()?;
    let millis = since.as_millis();
    if millis > LAST_MILLIS {
        return None;
    }
    Some(Moment::of_millis(millis as i64))
}
