//! What a line changes, by numbers: machines and links as functions of their number, with nothing
//! beyond a line's ends.

ghost use Rattle.std.specs.Prelude.{◌≡◌, ◌+◌, ℕ, Bool, List, length};
ghost use Rattle.line_base.specs.declared.states.Side.{Side};
ghost use Rattle.board_record.specs.declared.sensed.Sensed.{Sensed};
ghost use Rattle.line_link.specs.Link.{LinkParts};
ghost use Rattle.line_report.specs.declared.happening.Happening.{Happening};
ghost use Rattle.line_world.specs.FloorPlan.{IsWhole};
ghost use Rattle.line_world.specs.Moves.{floor_move};
ghost use Rattle.line_world.specs.declared.moves.Move.{Move};
ghost use Rattle.node_core.specs.declared.act.Act.{Act};
ghost use Rattle.node_core.specs.declared.input.Input.{Input};
ghost use Rattle.line_step.specs.Acts.{acts_did};
ghost use Rattle.line_step.specs.Lines.{LineDoes, lied, moved, unseen};
ghost use Rattle.line_step.specs.Near.{HasPlace, near_at, nears_did};
ghost use Rattle.line_step.specs.Numbered.{ChangesGap, ChangesLink, ChangesMachine};
ghost use Rattle.line_step.specs.Requests.{Request};
ghost use Rattle.line_step.specs.State.{LineState, one_more, with_world};
ghost use Rattle.line_step.specs.Steps.{MachineSteps};
ghost use Rattle.line_step.specs.World.{WorldParts, with_link};

/// A step changes its machine, what is at it on the floor, and the links and gaps on both its
/// sides, and nothing else of the line. What is done to a link changes that link alone; a move
/// changes what is around its gap; a sensor event that was not changes what its machine has
/// unread, a board that comes or goes unseen what lies in its machine's list; and one machine more
/// is all that is new then.
#[tactic(auto, using(crate::proofs::Changing::link_changes, crate::proofs::Changing::lied_changes, crate::proofs::Changing::unseen_changes, crate::proofs::Changing::more_changes))]
pub fn a_step_changes_its_machine_alone()
    ensures step { (number machine : ℕ) (input : Input) (before after : LineState)
        (told : List Happening) → MachineSteps number machine input before after told
        → ChangesMachine machine before after }
    ensures link { (link : ℕ) (parts : LinkParts) (before : LineState)
        → ChangesLink link before (with_world (with_link link parts before.world) before) }
    ensures moved { (gap : ℕ) (step : Move) (before : LineState)
        → ChangesGap gap before (moved (floor_move gap step before.world.floor) before) }
    ensures lied { (number machine : ℕ) (sensed : Sensed) (before : LineState)
        → ChangesMachine machine before (lied number machine sensed before) }
    ensures unseen { (number machine : ℕ) (side : Side) (before : LineState)
        → ChangesMachine machine before (unseen number machine side before) }
    ensures more { (lane : ℕ) (is_bridge : Bool) (capacity used : ℕ) (before : LineState)
        → ChangesMachine (length before.machines + 1) before
        (one_more lane is_bridge capacity used before) }
{}

/// What the acts of a machine do is done, in their order, to what is at it on the floor and to the
/// links and gaps on both its sides: each of them is what it is then by these alone. Where a side
/// has no link nothing is sent there, and where it has no gap no drive runs.
pub fn acts_reach_what_is_near()
    ensures { (has : Side → Bool) (second : Bool) (machine : ℕ) (acts : List Act)
        (world : WorldParts) → HasPlace machine has world
        → near_at machine (acts_did second machine acts world).world
        ≡ nears_did has second acts (near_at machine world) }
{}

/// Between each two machines there goes on to be a gap.
pub fn the_floor_stays_whole()
    ensures { (number : ℕ) (request : Request) (before next : LineState) (told : List Happening)
        → IsWhole before.world.floor → LineDoes number request before next told
        → IsWhole next.world.floor }
{}
