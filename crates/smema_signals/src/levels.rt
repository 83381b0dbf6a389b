ghost use Rattle.std.specs.Prelude.{◌≡◌, ◌≢◌, ◌↔◌, IsNone, IfSome};
ghost use Rattle.smema_signals.specs.Edge.{edge};

/// The levels of an end's signals, `true` for on. An end with one signal has its second off.
#[derive(Clone, Copy, Debug, PartialEq, Eq)]
pub struct Levels {
    pub first: bool,
    pub second: bool,
}

/// The edges that a call makes: for each signal the level to which it changed, and `None` exactly
/// where it stayed.
#[derive(Clone, Copy, Debug, PartialEq, Eq)]
pub struct Edges {
    pub first: Option<bool>,
    pub second: Option<bool>,
}

/// The edge of one signal from a level to another.
pub(crate) fn edge_of(old: bool, new: bool) -> Option<bool>
    ensures edge { result ≡ edge old new }
    ensures none { IsNone result ↔ (old ≡ new) }
    ensures level { IfSome result (λ level. level ≡ new) }
{
    if old == new { None } else { Some(new) }
}
