//! What holds of a lane of a script, line by line.

ghost use Rattle.law_lane_script.specs.Script.{EachLaneDoesItsLines};

/// The run of a script over several lanes is on each of them the run of its lines as they are to that
/// lane, one for each line that the script does, and up to the first line that told what was not so,
/// on whatever lane, a fit one to which boards come only where they weren't at home. What the lane
/// does in a line is what is told of it; and of a line of this lane alone all that is told of it, its
/// refusal too, but for standings.
pub fn each_lane_does_its_lines()
    ensures { EachLaneDoesItsLines }
{
    law_link_messages::laws::the_words_of_a_piece_are_the_oldest_messages();
    law_link_messages::laws::a_frame_with_a_nul_is_a_wrong_word();
    law_link_messages::laws::fit_messages_are_sayable();
    law_link_messages::laws::the_words_of_fit_messages_are_fit();
    law_link_messages::laws::the_words_behind_a_nul_are_fit();
}
