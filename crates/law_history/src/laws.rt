//! What was told before, over every run of a line.

ghost use Rattle.law_history.specs.LetGo.{WhatSettlesLeft};
ghost use Rattle.law_history.specs.Offered.{WhatSettlesWasOffered};
ghost use Rattle.law_history.specs.Opened.{WhatOpensStarted};
ghost use Rattle.law_history.specs.Settled.{BoardsSettleWhenSaid};
ghost use Rattle.law_history.specs.Started.{WhatIsHeldStarted};

/// A board settles only after the end of its transport was heard, in the connection of its
/// handover, or the upstream machine's description of itself in a later one: over every script up
/// to the first line that told what was not so, let a board come or go unseen, or let one come from
/// another lane to where it is at home already.
pub fn boards_settle_when_it_is_said()
    ensures { BoardsSettleWhenSaid }
{
    law_link_messages::laws::the_words_of_a_piece_are_the_oldest_messages();
    law_link_messages::laws::a_frame_with_a_nul_is_a_wrong_word();
    law_link_messages::laws::fit_messages_are_sayable();
    law_link_messages::laws::the_words_of_fit_messages_are_fit();
    law_link_messages::laws::the_words_behind_a_nul_are_fit();
}

/// The record of a board that settles at a gap is the one that the outlet above let go there last:
/// over the same lines.
pub fn what_settles_is_what_left()
    ensures { WhatSettlesLeft }
{
    law_link_messages::laws::the_words_of_a_piece_are_the_oldest_messages();
    law_link_messages::laws::a_frame_with_a_nul_is_a_wrong_word();
    law_link_messages::laws::fit_messages_are_sayable();
    law_link_messages::laws::the_words_of_fit_messages_are_fit();
    law_link_messages::laws::the_words_behind_a_nul_are_fit();
}

/// The record of a board that settles at a gap is, with all its parts, the one in the last
/// BoardAvailable that the machine above sent before it opened that handover; and behind the line
/// the machine below keeps it, behind all others, unless something is done by hand at that machine
/// in the same line: over the same lines.
pub fn what_settles_was_offered()
    ensures { WhatSettlesWasOffered }
{
    law_link_messages::laws::the_words_of_a_piece_are_the_oldest_messages();
    law_link_messages::laws::a_frame_with_a_nul_is_a_wrong_word();
    law_link_messages::laws::fit_messages_are_sayable();
    law_link_messages::laws::the_words_of_fit_messages_are_fit();
    law_link_messages::laws::the_words_behind_a_nul_are_fit();
}

/// The record that the intake below a gap holds after a line is of the board of the report's last
/// start there, and nothing settled or was dropped there since: over the same lines.
pub fn what_an_intake_holds_was_started_last()
    ensures { WhatIsHeldStarted }
{
    law_link_messages::laws::the_words_of_a_piece_are_the_oldest_messages();
    law_link_messages::laws::a_frame_with_a_nul_is_a_wrong_word();
    law_link_messages::laws::fit_messages_are_sayable();
    law_link_messages::laws::the_words_of_fit_messages_are_fit();
    law_link_messages::laws::the_words_behind_a_nul_are_fit();
}

/// Where a machine opens the handover of a board, the report's last start at that gap is of this
/// board, nothing was opened, refused or settled there since, and the intake below holds the
/// board's record, unless it dropped the board since: over the same lines.
pub fn what_opens_was_started_last()
    ensures { WhatOpensStarted }
{
    law_link_messages::laws::the_words_of_a_piece_are_the_oldest_messages();
    law_link_messages::laws::a_frame_with_a_nul_is_a_wrong_word();
    law_link_messages::laws::fit_messages_are_sayable();
    law_link_messages::laws::the_words_of_fit_messages_are_fit();
    law_link_messages::laws::the_words_behind_a_nul_are_fit();
}
