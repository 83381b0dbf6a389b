//! What holds of the boards of a line over the run of every script. Each law is a contract over
//! the definitions of specs/.

ghost use Rattle.law_one_standing.specs.Blame.{NoFalseBlame};
ghost use Rattle.law_one_standing.specs.Facts.{CustodyFacts};
ghost use Rattle.law_one_standing.specs.Reached.{CustodyAlong, IdsAlong, LedgerAlong, StandsAlong};
ghost use Rattle.law_one_standing.specs.Replay.{LedgerFollows};
ghost use Rattle.law_one_standing.specs.Standing.{OneStanding};

/// One standing: after each line of a script, up to the first one that told of a sensor event that
/// was not, or let a board come to a track where it is at home already, every id with a mark has a standing, with one machine or in the handover at one gap;
/// so has every board in a list and in a gap, with that machine or in a handover at one of its
/// gaps, and in the handover at that gap; a machine keeps the records of boards that lie in its
/// list, and none that its outlet holds; no list has an id twice; and at most one id is in the
/// handover at a gap. It says nothing of a line behind a `lie`, and nothing of a script of more
/// than 1,000,000 lines.
pub fn one_standing_after_each_line()
    ensures { OneStanding }
{
    law_link_messages::laws::the_words_of_a_piece_are_the_oldest_messages();
    law_link_messages::laws::a_frame_with_a_nul_is_a_wrong_word();
    law_link_messages::laws::fit_messages_are_sayable();
    law_link_messages::laws::the_words_of_fit_messages_are_fit();
    law_link_messages::laws::the_words_behind_a_nul_are_fit();
}

/// The custody facts, after the same lines: whose half holds the record of a board that lies begun
/// in a gap, or across it; what the sensor of an exit saw unread while its outlet holds a board
/// that lies elsewhere or nowhere; that the outlet holds nothing while the end of a transport, or
/// the description of the machine upstream, is on its way, whole or spoiled; that the boards of a
/// list stand in the order of the machine's records; and that two halves of a gap which hold a
/// record hold one.
pub fn the_custody_facts_hold_after_each_line()
    ensures { CustodyFacts }
{
    law_link_messages::laws::the_words_of_a_piece_are_the_oldest_messages();
    law_link_messages::laws::a_frame_with_a_nul_is_a_wrong_word();
    law_link_messages::laws::fit_messages_are_sayable();
    law_link_messages::laws::the_words_of_fit_messages_are_fit();
    law_link_messages::laws::the_words_behind_a_nul_are_fit();
}

/// The ledger follows the report: what is told of records, read as deeds, is legal one deed after
/// the other from the empty ledger on, and behind each of the same lines the ledger's marks are
/// those of the machines.
pub fn the_ledger_follows_the_report()
    ensures { LedgerFollows }
{
    law_link_messages::laws::the_words_of_a_piece_are_the_oldest_messages();
    law_link_messages::laws::a_frame_with_a_nul_is_a_wrong_word();
    law_link_messages::laws::fit_messages_are_sayable();
    law_link_messages::laws::the_words_of_fit_messages_are_fit();
    law_link_messages::laws::the_words_behind_a_nul_are_fit();
}

/// No false blame: in each of the same lines a breach at a side of a machine is told only where an
/// earlier line told that what flows to that side was spoiled.
pub fn a_breach_is_told_only_behind_a_spoiled_text()
    ensures { NoFalseBlame }
{
    law_link_messages::laws::the_words_of_a_piece_are_the_oldest_messages();
    law_link_messages::laws::a_frame_with_a_nul_is_a_wrong_word();
    law_link_messages::laws::fit_messages_are_sayable();
    law_link_messages::laws::the_words_of_fit_messages_are_fit();
    law_link_messages::laws::the_words_behind_a_nul_are_fit();
}

/// The same a line at a time. Of each state that the run of a script has led to: one standing and
/// the custody facts, where no line told of a sensor event that was not; and in any case that no
/// two boards share an id, and that each id was made by a machine of the line. And of its next
/// line: what is told of records is legal in every ledger that has the marks of the machines
/// before the line, and leads to one that has those after it.
pub fn what_a_run_leads_to()
    ensures standing { StandsAlong }
    ensures custody { CustodyAlong }
    ensures ids { IdsAlong }
    ensures ledger { LedgerAlong }
{
    law_link_messages::laws::the_words_of_a_piece_are_the_oldest_messages();
    law_link_messages::laws::a_frame_with_a_nul_is_a_wrong_word();
    law_link_messages::laws::fit_messages_are_sayable();
    law_link_messages::laws::the_words_of_fit_messages_are_fit();
    law_link_messages::laws::the_words_behind_a_nul_are_fit();
}
