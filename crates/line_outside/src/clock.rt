ghost use Rattle.std.specs.Prelude.{◌≡◌, ◌≤◌, ℕ, ℤ, Option, Some};
ghost use Rattle.line_outside.specs.Clock.{TellsMoment};

use line_base::Moment;

/// A clock. It never fails.
pub trait Clock {
    /// The one moment that every call answers, where it is told.
    ghost moment: { Self → Option ℤ };

    /// A count of its faults. It never falls.
    ghost faults: { Self → ℕ };

    /// The moment now.
    fn now(&mut self) -> Moment
        ensures told { TellsMoment (moment self.old) (moment self.new) result }
        ensures cause { faults self.old ≤ faults self.new };
}

/// A clock that stands at one moment.
#[derive(Clone, Copy, Debug, PartialEq, Eq)]
pub struct FixedClock {
    moment: Moment,
}

impl FixedClock {
    /// A clock that always answers this moment.
    pub fn new(moment: Moment) -> FixedClock
        ensures { result.moment ≡ moment }
    {
        FixedClock { moment }
    }
}

impl Clock for FixedClock {
    ghost moment = { λ clock. Some clock.moment };

    ghost faults = { λ _. 0 };

    fn now(&mut self) -> Moment
        ensures told { TellsMoment (Some self.old.moment) (Some self.new.moment) result }
        ensures cause { 0 ≤ 0 }
        // it stays as it is, and answers the moment that it was made with
        ensures same { self.new ≡ self.old }
        ensures fixed { result ≡ self.old.moment }
    {
        self.moment
    }
}
