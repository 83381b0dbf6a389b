//! What holds of a floor whatever is done on it. Each law is a contract over the definitions that
//! the calls of `Floor` meet.

ghost use Rattle.std.specs.Prelude.{◌≡◌, ◌↔◌, ◌++◌, ◌<◌, List, Ok, Some, length, ℕ};
ghost use Rattle.line_base.specs.declared.states.Side.{Side as At};
ghost use Rattle.board_record.specs.declared.sensed.Sensed.{Sensed as Event};
ghost use Rattle.line_world.specs.declared.board.Board.{Board as OnFloor};
ghost use Rattle.line_world.specs.declared.moves.Move.{Move as Step};
ghost use Rattle.line_world.specs.FloorPlan.{FloorPlan, IsWhole, empty_machine, free_gap, gap_at, machine_at};
ghost use Rattle.line_world.specs.Moves.{Around, around_move, floor_move};
ghost use Rattle.line_world.specs.Moved.{IsFloorMove, IsMove};
ghost use Rattle.line_world.specs.Boards.{ChangesId, LosesBoard, boards_on};
ghost use Rattle.line_world.specs.Ids.{HasFreshId, IdsDiffer};
ghost use Rattle.line_world.specs.Events.{events_at};

/// The plain program that `Floor::apply` meets does exactly the moves of the table: each as its
/// gap and the machines on either side of it were, and as they are then.
#[tactic(auto, using(crate::proofs::Inverting::moves_exactly, crate::proofs::Inverting::floor_moves_exactly))]
pub fn moves_are_those_of_the_table()
    ensures around { (step : Step) (old new : Around)
        → (around_move step old ≡ Ok new) ↔ IsMove step old new }
    ensures floor { (gap : ℕ) (step : Step) (old new : FloorPlan)
        → (floor_move gap step old ≡ Ok new) ↔ IsFloorMove gap step old new }
{}

/// Where all ids on a floor differ, they differ after every move, after a board is gone, and after
/// one came, or got another id, whose id stood nowhere.
#[tactic(auto, using(crate::proofs::Differing::moves_differ))]
pub fn ids_go_on_differing()
    ensures moves { (gap : ℕ) (step : Step) (old new : FloorPlan) → IsWhole old
        → floor_move gap step old ≡ Ok new → IdsDiffer old → IdsDiffer new }
    ensures loses { (old new : FloorPlan) (board : OnFloor)
        → LosesBoard (boards_on old) (boards_on new) board → IdsDiffer old → IdsDiffer new }
    ensures gains { (old new : FloorPlan) (board : OnFloor)
        → LosesBoard (boards_on new) (boards_on old) board → HasFreshId old board → IdsDiffer old
        → IdsDiffer new }
    ensures changes { (was now : ℕ) (old new : FloorPlan)
        → ChangesId was now (boards_on old) (boards_on new)
        → HasFreshId old (record { id = Some now }) → IdsDiffer old → IdsDiffer new }
{}

/// The events of one side of a list that goes on are those of its front, and then those of what
/// follows.
#[tactic(auto, using(crate::proofs::Telling::events_append))]
pub fn events_of_a_side_append()
    ensures { (side : At) (first rest : List Event)
        → events_at side (first ++ rest) ≡ events_at side first ++ events_at side rest }
{}

/// What has no number is nothing: before the first machine and behind the last there is neither a
/// board nor an event, and a gap there is free, with its drives off.
#[tactic(auto, using(crate::proofs::Keeping::none_behind, crate::proofs::Keeping::no_gap_behind))]
pub fn what_has_no_number_is_nothing()
    ensures machine { (plan : FloorPlan) → machine_at plan 0 ≡ empty_machine }
    ensures gap { (plan : FloorPlan) → gap_at plan 0 ≡ free_gap }
    ensures machine_behind { (plan : FloorPlan) (machine : ℕ) → length plan.machines < machine
        → machine_at plan machine ≡ empty_machine }
    ensures gap_behind { (plan : FloorPlan) (gap : ℕ) → length plan.gaps < gap
        → gap_at plan gap ≡ free_gap }
{}
