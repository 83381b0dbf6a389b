//! The law of stops. It is a contract over the definitions of specs/.

ghost use Rattle.law_stops.specs.Stops.{StopIsTurnZero, StopsLosePower, TurnZeroLosesPower};

/// A `stop` of a script and turn 0 of a node that begins again do one thing to their machine: it
/// notices at its entry, and behind that at its exit, that its connection is gone, each where it has
/// one. So from one machine both lead to one machine; but that the node, where it was supervised,
/// makes a step more, by which it isn't any more.
pub fn a_stop_is_turn_0()
    ensures script { StopsLosePower }
    ensures node { TurnZeroLosesPower }
    ensures one { StopIsTurnZero }
{}
