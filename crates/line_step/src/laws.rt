//! What holds of a line whatever the script has it do. Each law is a contract over the definitions
//! of the line step.

ghost use Rattle.std.specs.Prelude.{◌≡◌, ◌≢◌, ◌≤◌, ◌+◌, ◌-◌, ℕ, ℤ, Bool, false, List, Some, None};
ghost use Rattle.std.specs.List.{flat_map};
ghost use Rattle.line_base.specs.declared.states.Side.{Side};
ghost use Rattle.board_record.specs.declared.sensed.Sensed.{Sensed};
ghost use Rattle.line_link.specs.Link.{connected_of};
ghost use Rattle.line_report.specs.declared.happening.Happening.{Happening};
ghost use Rattle.node_core.specs.declared.act.Act.{Act};
ghost use Rattle.node_core.specs.declared.input.Input.{Input};
ghost use Rattle.node_core.specs.declared.input.Input.TheVariants as inputs;
ghost use Rattle.node_core.specs.May as node;
ghost use Rattle.node_core.specs.Node.{NodeState};
ghost use Rattle.node_core.specs.Sides.{is_open};
ghost use Rattle.node_core.specs.Step.{Steps};
ghost use Rattle.standings.specs.Marks.{has_id};
ghost use Rattle.standings.specs.Told.{told_of};
ghost use Rattle.line_step.specs.Acts.{acts_did};
ghost use Rattle.line_step.specs.Lines.{LineDoes, LineSteps, connecting, met};
ghost use Rattle.line_step.specs.Named.{ids_named};
ghost use Rattle.step_rules.specs.Opened.{open_after, opened_by};
ghost use Rattle.line_step.specs.Reasons.{may_connect, may_do};
ghost use Rattle.line_step.specs.Shown.{ascending, standing_told, standings_told};
ghost use Rattle.line_step.specs.Requests.{Request};
ghost use Rattle.line_step.specs.State.{LineState, machine_in, marks_in, no_line};
ghost use Rattle.line_step.specs.Steps.{MachineSteps};
ghost use Rattle.line_step.specs.Together.{IsLineTogether, is_linked};
ghost use Rattle.line_step.specs.World.{WorldParts, link_at};

/// A side of a machine has a connection after a step exactly where its acts say so: an input makes
/// one, and a close that the machine makes or notices ends it. Nothing else does.
pub fn a_side_is_open_as_the_acts_say()
    ensures { (before : NodeState) (unread : List Sensed) (input : Input) (moment : ℤ)
        (after : NodeState) (acts : List Act) (side : Side)
        → Steps before unread input moment after acts
        → is_open side after.lane.body
        ≡ open_after side (opened_by input side (is_open side before.lane.body)) acts }
{}

/// The acts of a machine change whether the ends of its own two links have connections, as they
/// say, and no other end. A link that is cut as too much is on its way keeps both.
#[tactic(auto, using(crate::proofs::Ends::own_end, crate::proofs::Ends::other_end))]
pub fn acts_change_no_other_end()
    ensures own { (second : Bool) (machine : ℕ) (acts : List Act) (world : WorldParts)
        (side : Side)
        → is_linked machine side (acts_did second machine acts world).world
        ≡ open_after side (is_linked machine side world) acts }
    ensures other { (second : Bool) (machine : ℕ) (acts : List Act) (world : WorldParts)
        (other : ℕ) (side : Side) → other ≢ machine
        → is_linked other side (acts_did second machine acts world).world
        ≡ is_linked other side world }
{}

/// A line without a machine stands together.
#[tactic(auto, using(crate::proofs::Keeps::none_together))]
pub fn no_line_is_together()
    ensures { IsLineTogether no_line }
{}

/// What stands together in a line still does after each line of a script, of whatever form: before
/// it is counted, and then.
#[tactic(auto, using(crate::proofs::Keeps::does_together, crate::proofs::Keeps::lines_stay, crate::proofs::Keeps::keeps_together))]
pub fn a_line_of_a_script_keeps_it_together()
    ensures does { (number : ℕ) (request : Request) (before next : LineState)
        (told : List Happening) → IsLineTogether before → LineDoes number request before next told
        → IsLineTogether next }
    ensures lines { (number : ℕ) (request : Request) (before next : LineState)
        (told : List Happening) → LineDoes number request before next told
        → next.lines ≡ before.lines }
    ensures steps { (number : ℕ) (request : Request) (before after : LineState)
        (told : List Happening) → number ≡ before.lines + 1 → number ≤ 1000000
        → IsLineTogether before → LineSteps number request before after told → IsLineTogether after }
{}

/// Where a machine may connect, its end of the link has no connection yet; and once it has made
/// its step the machine above is there and may meet the connection: accept it, or answer it as a
/// second one.
#[tactic(auto, using(crate::proofs::Connecting::free_below))]
pub fn a_connection_may_be_met()
    ensures free { (machine : ℕ) (before : LineState) → IsLineTogether before
        → may_connect machine before ≡ may_do
        → (link_at (machine - 1) before.world).downstream ≡ None }
    ensures there { (number machine : ℕ) (before between : LineState) (told : List Happening)
        → IsLineTogether before → may_connect machine before ≡ may_do
        → MachineSteps number machine inputs.Connect (connecting machine before) between told
        → (above : NodeState) × (machine_in (machine - 1) between ≡ Some above) }
    ensures may { (number machine : ℕ) (before between : LineState) (told : List Happening)
        → IsLineTogether before → may_connect machine before ≡ may_do
        → MachineSteps number machine inputs.Connect (connecting machine before) between told
        → (above : NodeState) → machine_in (machine - 1) between ≡ Some above
        → node.may_of above (met (connected_of (link_at (machine - 1) before.world).upstream))
        ≡ node.may_do }
{}

/// The marks of an id change only where an act that is told of names the id.
#[tactic(auto, using(crate::proofs::ChangedStandings::line_stays))]
pub fn marks_change_where_an_act_names_the_board()
    ensures { (id number : ℕ) (request : Request) (before after : LineState)
        (told : List Happening) → LineDoes number request before after told
        → has_id id (ids_named told) ≡ false → marks_in before id ≡ marks_in after id }
{}

/// The standings that a line changed are found by a look at the ids which its acts name, and at no
/// others.
#[tactic(auto, using(crate::proofs::ChangedStandings::standings_named))]
pub fn standings_change_where_an_act_names_the_board()
    ensures { (number : ℕ) (request : Request) (before after : LineState) (told : List Happening)
        → LineDoes number request before after told
        → standings_told before after
        ≡ flat_map (λ id. standing_told id (told_of (marks_in before id) (marks_in after id)))
        (ascending (ids_named told)) }
{}
