//! What a line supervisor knows of each board, over every run of a line.

ghost use Rattle.law_supervisor_replay.specs.Along.{AgreesAlong};
ghost use Rattle.law_supervisor_replay.specs.Replay.{ReplayAgrees};

/// The supervisor's replay agrees: where each machine is supervised before its first mark, what a
/// supervisor folds from the `tells` lines says of every id where its board is, exactly as the
/// marks do: at the machine that keeps it or whose outlet holds it; on its way where it has left a
/// machine and the intake of the next one alone holds it; and else nowhere. So it is after each
/// line of a script, up to the first one that told of a sensor event that was not, or let a board
/// come or go unseen, or come from another lane to where it is at home. What was told of a board
/// before the line by which it came from another lane is forgotten. It says nothing of a line behind
/// a `lie` or an `unseen`, and nothing of a script of more than 1,000,000 lines.
pub fn the_replay_agrees_with_the_marks()
    ensures { ReplayAgrees }
{
    law_link_messages::laws::the_words_of_a_piece_are_the_oldest_messages();
    law_link_messages::laws::a_frame_with_a_nul_is_a_wrong_word();
    law_link_messages::laws::fit_messages_are_sayable();
    law_link_messages::laws::the_words_of_fit_messages_are_fit();
    law_link_messages::laws::the_words_behind_a_nul_are_fit();
}

/// The same of the next line behind a run of a track: what is folded from all that was told before
/// it, and from what it tells, agrees with the marks behind it.
pub fn each_line_keeps_the_replay_right()
    ensures { AgreesAlong }
{
    law_link_messages::laws::the_words_of_a_piece_are_the_oldest_messages();
    law_link_messages::laws::a_frame_with_a_nul_is_a_wrong_word();
    law_link_messages::laws::fit_messages_are_sayable();
    law_link_messages::laws::the_words_of_fit_messages_are_fit();
    law_link_messages::laws::the_words_behind_a_nul_are_fit();
}
