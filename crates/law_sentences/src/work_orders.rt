//! The answers to the questions of each machine, over every line of a script and over every run.

ghost use Rattle.law_sentences.specs.Answers.{EachLineAnswersOnce, OneAnswer};

/// One answer to a query: over every run of a script, the words that are told as answers to a
/// question of a machine are the one that the machine keeps behind the run, or none where it keeps
/// none. It has no premise but the run: so it holds behind a `lie` and an `unseen` too. It says
/// nothing of when an answer comes.
pub fn each_query_has_one_answer()
    ensures { OneAnswer }
{}

/// The same of a line, after whatever was done before: a word that is told as the answer to a
/// question answers one that was asked and had no answer, and is kept; where none is told the kept
/// answer is what it was; and a kept answer stays.
pub fn each_line_answers_once()
    ensures { EachLineAnswersOnce }
{}
