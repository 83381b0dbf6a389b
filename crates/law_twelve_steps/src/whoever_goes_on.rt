//! How a handover ends for whoever goes on with it.

ghost use Rattle.law_twelve_steps.specs.Play.{EndsForWhoeverGoesOn};

/// From each state of a line that is announced for a gap and a board, and that a script reached
/// whose lines told no lie and let no board come or go unseen: whoever does a link step of that
/// gap that can be done, one after another, has ended the handover after at most twelve of them,
/// or has done fewer than twelve, and one more can be done and has a step. So none is left only
/// behind the end. And there are such lines, which end it.
pub fn whoever_goes_on_ends_it()
    ensures { EndsForWhoeverGoesOn }
{
    crate::laws::an_undisturbed_handover_ends_within_twelve_link_steps();
}
