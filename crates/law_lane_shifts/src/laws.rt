//! What holds of a board that goes to another lane.

ghost use Rattle.law_lane_shifts.specs.Shifted.{EachShiftLeavesRecords};

/// Over each shift of a script, up to the first line that told what was not so, on whatever lane: the
/// record that the machine keeps last on the lane to which the board went is the one that it kept of
/// the board on the other lane before the line, with all its parts.
pub fn each_shift_leaves_the_record()
    ensures { EachShiftLeavesRecords }
{
    law_link_messages::laws::the_words_of_a_piece_are_the_oldest_messages();
    law_link_messages::laws::a_frame_with_a_nul_is_a_wrong_word();
    law_link_messages::laws::fit_messages_are_sayable();
    law_link_messages::laws::the_words_of_fit_messages_are_fit();
    law_link_messages::laws::the_words_behind_a_nul_are_fit();
}
