//! What holds of the ids of all lanes.

ghost use Rattle.law_lane_ids.specs.OwnIds.{IdsOfAllLanes};

/// Over the run of every script over several lanes, behind a lie too: no two boards share an id, on
/// one lane or on two, and each id that is made on a lane, by an insertion or a replacement, is none
/// of those that were named by hand on any lane before.
pub fn ids_are_new_on_all_lanes()
    ensures { IdsOfAllLanes }
{
    law_link_messages::laws::the_words_of_a_piece_are_the_oldest_messages();
    law_link_messages::laws::a_frame_with_a_nul_is_a_wrong_word();
    law_link_messages::laws::fit_messages_are_sayable();
    law_link_messages::laws::the_words_of_fit_messages_are_fit();
    law_link_messages::laws::the_words_behind_a_nul_are_fit();
}
