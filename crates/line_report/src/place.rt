ghost use Rattle.std.specs.Prelude.{◌≡◌};

/// A machine or a gap by its number, and the lane on which it is told.
#[derive(Clone, Copy)]
pub(crate) struct Place {
    pub lane: u32,
    pub number: u32,
}

#[inline(always)]
pub(crate) fn place_on(lane: u32, number: u32) -> Place
    ensures { result ≡ record { lane = lane; number = number } }
{
    Place { lane, number }
}
