//! What holds of the order book and of the supervisory session whatever they meet. Each law is a
//! contract over the definitions that the calls meet.

ghost use Rattle.std.specs.Prelude.{◌≡◌, ◌↔◌, ℕ, Bool, false, List, [], Some};
ghost use Rattle.std.specs.List.{list_any};
ghost use Rattle.hermes_vertical.specs.declared.message.Vertical.{Vertical};
ghost use Rattle.supervisory_core.specs.Calls.{Call, after_all, first_answer};
ghost use Rattle.supervisory_core.specs.Orders.{answer_to};
ghost use Rattle.supervisory_core.specs.Row.{SupervisedRow, supervised_row};
ghost use Rattle.supervisory_core.specs.Run.{is_description, stands_after};
ghost use Rattle.supervisory_core.specs.Table.{IsSupervisedRow};

/// The plain program that `Supervised` meets computes exactly the rows of the table.
#[tactic(auto, using(crate::proofs::Rows::rows_exactly))]
pub fn rows_are_those_of_the_table()
    ensures { (stands : Bool) (message : Vertical) (row : SupervisedRow)
        → (supervised_row stands message ≡ Some row) ↔ IsSupervisedRow stands message row }
{}

/// A session stands exactly where the supervisor's description was among its messages.
#[tactic(auto, using(crate::proofs::Rows::stands_exactly))]
pub fn a_session_stands_once_the_supervisor_described_itself()
    ensures { (messages : List Vertical)
        → stands_after false messages ≡ list_any is_description messages }
{}

/// Whatever is asked and answered, the answer that is kept of a question is the first that was
/// given of its number once it was asked.
#[tactic(auto, using(crate::proofs::Kept::keeps_the_first))]
pub fn a_question_keeps_its_first_answer()
    ensures { (calls : List Call) (query : ℕ)
        → answer_to (after_all [] calls) query ≡ first_answer [] calls query }
{}
