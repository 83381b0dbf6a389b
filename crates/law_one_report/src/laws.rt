//! What there is one of. The laws are contracts over the definitions of specs/.

ghost use Rattle.law_one_report.specs.Frames.{EachIsSpelledOrRefused};
ghost use Rattle.law_one_report.specs.Steps.{EachLineHasAStep, EachScriptHasARun};

/// Each list of bytes spells a message of the horizontal channel, or is refused at a place and for
/// a reason. That no bytes are both, and neither of them twice, is said in `hermes_horizontal`.
pub fn each_frame_is_spelled_or_refused()
    ensures { EachIsSpelledOrRefused }
{}

/// Each line of a script has a step from each state of a line: the state after it, and what is told.
pub fn each_line_has_a_step()
    ensures { EachLineHasAStep }
{}

/// Each script has a run from each state of a line: a point for each part of each of its lines.
pub fn each_script_has_a_run()
    ensures { EachScriptHasARun }
{}
