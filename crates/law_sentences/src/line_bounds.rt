//! What a line holds at most.

ghost use Rattle.law_sentences.specs.Within.{EachLinkStaysWithin, EachMachineStaysWithin};

/// Each machine of a line that a run has led to holds no more than its places and the limits, and
/// on each link no more is on its way than may be: behind a `lie` and an `unseen` too.
pub fn a_line_stays_within_its_bounds()
    ensures machines { EachMachineStaysWithin }
    ensures links { EachLinkStaysWithin }
{}
