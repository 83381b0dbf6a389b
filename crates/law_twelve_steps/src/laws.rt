//! How an undisturbed handover goes on and ends. The law is a contract over the definitions of
//! specs/.

ghost use Rattle.law_twelve_steps.specs.Example.{IsReachedAnnounced};
ghost use Rattle.law_twelve_steps.specs.Twelve.{EndsWithinTwelveSteps};

/// Twelve link steps: from each state of a line that is announced for a gap and a board, in every
/// stretch of lines that doesn't disturb that handover, at most twelve link steps of the gap
/// happen up to the end of the handover, and in each state before the end one of them can be done;
/// and behind the line by which it is told that the board has settled, the machine below keeps the
/// record that stood at the front above. The state is one that a script reaches whose lines told
/// no lie and let no board come or go unseen. It says nothing of a stretch that is disturbed, nor
/// that a link step is ever made.
pub fn an_undisturbed_handover_ends_within_twelve_link_steps()
    ensures { EndsWithinTwelveSteps }
{
    law_link_messages::laws::the_words_of_a_piece_are_the_oldest_messages();
    law_link_messages::laws::a_frame_with_a_nul_is_a_wrong_word();
    law_link_messages::laws::fit_messages_are_sayable();
    law_link_messages::laws::the_words_of_fit_messages_are_fit();
    law_link_messages::laws::the_words_behind_a_nul_are_fit();
}

/// There is such a state: six lines of a script, of which none tells a lie, lead to the one that
/// is written out in specs/Example, and it is announced.
pub fn an_announced_state_is_reached()
    ensures { IsReachedAnnounced }
{
    law_link_messages::laws::the_words_of_a_piece_are_the_oldest_messages();
    law_link_messages::laws::a_frame_with_a_nul_is_a_wrong_word();
    law_link_messages::laws::fit_messages_are_sayable();
    law_link_messages::laws::the_words_of_fit_messages_are_fit();
    law_link_messages::laws::the_words_behind_a_nul_are_fit();
}
