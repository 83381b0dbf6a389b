//! What holds of traces whatever the lines are. Each law is a contract over the definitions of
//! specs/.

ghost use Rattle.std.specs.Prelude.{◌≡◌, ℕ, List, true};
ghost use Rattle.standings.specs.Marks.{has_id};
ghost use Rattle.standings.specs.Ledger.{are_different, marks_in};
ghost use Rattle.line_check.specs.Log.{boards_in, ledger_of};
ghost use Rattle.board_traces.specs.Courses.{course_of, courses_of, ids_of, marks_known};
ghost use Rattle.board_traces.specs.Texts.{count_of};
ghost use Rattle.board_traces.specs.declared.way.Sort.TheVariants.{Standing};

/// A trace is one of the checker's ledger: each board has the marks that it has there, so that `at`
/// and `between` are its standings; the boards are the ids that deeds named, each once; and those
/// that stand are as many as a check counts.
#[tactic(auto, using(crate::proofs::Ledgers::marks_agree, crate::proofs::Once::seen_listed, crate::proofs::Once::each_once, crate::proofs::Once::standing_counted))]
pub fn a_trace_is_of_the_ledger()
    ensures marks { (lines : List (List ℕ)) (id : ℕ)
        → marks_known (course_of (courses_of lines) id) ≡ marks_in id (ledger_of lines).marks }
    ensures seen { (lines : List (List ℕ)) (id : ℕ)
        → has_id id (ids_of (courses_of lines)) ≡ has_id id (ledger_of lines).seen }
    ensures once { (lines : List (List ℕ)) → are_different (ids_of (courses_of lines)) ≡ true }
    ensures counted { (lines : List (List ℕ))
        → count_of Standing (courses_of lines) ≡ boards_in (ledger_of lines).marks }
{}
