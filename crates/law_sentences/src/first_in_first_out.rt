//! The order of each machine's boards, over every run of a line.

ghost use Rattle.law_sentences.specs.Along.{OrderAlong};
ghost use Rattle.law_sentences.specs.Order.{FirstInFirstOut};

/// First in, first out: after each line of a script, up to the first one that told of a sensor
/// event that was not, or let a board come or go unseen, what the outlet of a machine holds, and
/// then what the machine keeps, is the order of its boards as the report tells of them; each board
/// that leaves is the first of the order then, and so is each that makes the move `left` in the
/// gap below the machine. It says nothing of a line behind a `lie` or an `unseen`, and nothing of
/// a script of more than 1,000,000 lines.
pub fn boards_go_in_the_order_in_which_they_came()
    ensures { FirstInFirstOut }
{
    law_link_messages::laws::the_words_of_a_piece_are_the_oldest_messages();
    law_link_messages::laws::a_frame_with_a_nul_is_a_wrong_word();
    law_link_messages::laws::fit_messages_are_sayable();
    law_link_messages::laws::the_words_of_fit_messages_are_fit();
    law_link_messages::laws::the_words_behind_a_nul_are_fit();
}

/// The same of the next line behind a run of a script: from what the outlet of each machine holds,
/// and what the machine keeps, before the line, to what they hold and keep behind it.
pub fn each_line_keeps_the_order()
    ensures { OrderAlong }
{
    law_link_messages::laws::the_words_of_a_piece_are_the_oldest_messages();
    law_link_messages::laws::a_frame_with_a_nul_is_a_wrong_word();
    law_link_messages::laws::fit_messages_are_sayable();
    law_link_messages::laws::the_words_of_fit_messages_are_fit();
    law_link_messages::laws::the_words_behind_a_nul_are_fit();
}
