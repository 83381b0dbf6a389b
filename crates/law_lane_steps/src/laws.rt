//! How an undisturbed handover of a lane ends.

ghost use Rattle.law_lane_steps.specs.Play.{EndsForWhoeverGoesOnOnLanes};
ghost use Rattle.law_lane_steps.specs.Steps.{EndsWithinTwelveOnLanes};

/// Twelve link steps of a lane: from each state that is announced on a lane for a gap and a board, and
/// that a script over several lanes reached whose lines told what was so, in every stretch of its
/// lines that doesn't disturb that handover, at most twelve link steps of that gap and lane happen up
/// to its end, and in each state before the end one of them can be done; and behind the line by which
/// it is told that the board has settled, the machine below keeps the record that stood at the front
/// above.
pub fn an_undisturbed_handover_of_a_lane_ends()
    ensures { EndsWithinTwelveOnLanes }
{
    law_link_messages::laws::the_words_of_a_piece_are_the_oldest_messages();
    law_link_messages::laws::a_frame_with_a_nul_is_a_wrong_word();
    law_link_messages::laws::fit_messages_are_sayable();
    law_link_messages::laws::the_words_of_fit_messages_are_fit();
    law_link_messages::laws::the_words_behind_a_nul_are_fit();
    law_twelve_steps::laws::an_undisturbed_handover_ends_within_twelve_link_steps();
}

/// From each such state, with room for thirteen lines more: whoever does lines of the script that are
/// link steps of that gap on that lane and can be done there, one after another, has ended the
/// handover after at most twelve of them, or has done fewer than twelve, and on the lane one more can
/// be done and has a step.
pub fn whoever_goes_on_a_lane_ends_it()
    ensures { EndsForWhoeverGoesOnOnLanes }
{
    law_link_messages::laws::the_words_of_a_piece_are_the_oldest_messages();
    law_link_messages::laws::a_frame_with_a_nul_is_a_wrong_word();
    law_link_messages::laws::fit_messages_are_sayable();
    law_link_messages::laws::the_words_of_fit_messages_are_fit();
    law_link_messages::laws::the_words_behind_a_nul_are_fit();
    law_twelve_steps::whoever_goes_on::whoever_goes_on_ends_it();
}
