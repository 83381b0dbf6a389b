//! What a machine has of a board stays as it is, and what a standing names is there.

ghost use Rattle.law_sentences.specs.Contents.{ContentsStayWhole};
ghost use Rattle.law_sentences.specs.Records.{ContentsAreKept};
ghost use Rattle.law_sentences.specs.There.{StandingsNameWhatIsThere};

/// Over each line of a script, up to the first one that told of a sensor event that was not, or let a
/// board come from another lane to where it is at home already: what a machine has of a board
/// before the line, kept, in its outlet or in its intake, and keeps behind it, is the same record
/// with all its parts, unless the line tells that this machine marked that board, or that the board
/// has a circuit more; then it is that record with the quality of the mark, or with that circuit
/// behind those that it had. What its outlet holds behind the line is the same in any case. So a record that comes back is the one that was
/// opened, and one that settles the one that the intake held. A line that sets a level of a
/// bridge's segment changes no record of the bridge but the front one, to failed.
pub fn contents_stay_whole()
    ensures { ContentsStayWhole }
{
    law_link_messages::laws::the_words_of_a_piece_are_the_oldest_messages();
    law_link_messages::laws::a_frame_with_a_nul_is_a_wrong_word();
    law_link_messages::laws::fit_messages_are_sayable();
    law_link_messages::laws::the_words_of_fit_messages_are_fit();
    law_link_messages::laws::the_words_behind_a_nul_are_fit();
}

/// Contents are kept: over each of the same lines, a record that a machine keeps before the line
/// and behind it is the same, unless the line tells that the machine marked that board, or that the
/// board has a circuit more.
pub fn contents_are_kept_over_each_line()
    ensures { ContentsAreKept }
{
    contents_stay_whole();
}

/// After each of the same lines, a standing of an id names what is there: a machine of the line,
/// or a gap with a machine of the line above it and one below.
pub fn standings_name_what_is_there()
    ensures { StandingsNameWhatIsThere }
{
    law_link_messages::laws::the_words_of_a_piece_are_the_oldest_messages();
    law_link_messages::laws::a_frame_with_a_nul_is_a_wrong_word();
    law_link_messages::laws::fit_messages_are_sayable();
    law_link_messages::laws::the_words_of_fit_messages_are_fit();
    law_link_messages::laws::the_words_behind_a_nul_are_fit();
}
