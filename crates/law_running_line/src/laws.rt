//! What is computed of running machines. Each law is a contract over the definitions of specs/.

ghost use Rattle.std.specs.Prelude.{◌≡◌, ◌+◌, ◌++◌, ◌∷◌, [], List, Some, map, slice_get, slice_set, ℕ, ℤ};
ghost use Rattle.line_base.specs.declared.states.Side.{Side};
ghost use Rattle.line_base.specs.declared.states.Side.TheVariants.{Entry, Exit};
ghost use Rattle.board_record.specs.declared.sensed.Sensed.{Sensed as Sight};
ghost use Rattle.line_world.specs.declared.moves.Move.{Move};
ghost use Rattle.node_core.specs.Desk.{Desk};
ghost use Rattle.node_core.specs.Event.{Accepted, Connect, Event, Nothing, Second};
ghost use Rattle.node_core.specs.May.{may_do, may_of};
ghost use Rattle.node_core.specs.Node.{NodeState};
ghost use Rattle.node_core.specs.Step.{machine_step};
ghost use Rattle.node_core.specs.declared.act.Act.{Act};
ghost use Rattle.node_core.specs.declared.input.Input.{Input};
ghost use Rattle.node_core.specs.declared.input.Input.TheVariants as inputs;
ghost use Rattle.node_core.specs.declared.lane.Body.{Body as Machine};
ghost use Rattle.law_machine_custody.specs.Ahead.{IsFreeRead};
ghost use Rattle.law_machine_custody.specs.Flight.{IsPlain};
ghost use Rattle.law_machine_custody.specs.InTime.{IsMetInTime, IsReadEnough};
ghost use Rattle.law_one_standing.specs.Carried.{Trace};
ghost use Rattle.law_one_standing.specs.Standing.{HasOneStanding};
ghost use Rattle.law_running_line.specs.Begins.{Begins};
ghost use Rattle.law_running_line.specs.Doubled.{IsDoubled, IsHeldBehind};
ghost use Rattle.law_running_line.specs.Ids.{HasUniqueIds};
ghost use Rattle.law_running_line.specs.New.{IsNew, NumbersDiffer};
ghost use Rattle.law_running_line.specs.Reading.{Behind, Reading, ReadsFront, Strictly};
ghost use Rattle.law_running_line.specs.Running.{Running, unread_by};
ghost use Rattle.law_running_line.specs.RunSteps.{Asks, LetsBe, Moves, RunSteps, RunsTo, given_up, let_be};
ghost use Rattle.law_running_line.specs.Stands.{AreInRelation, Stands, line_of, node_in};
ghost use Rattle.law_running_line.specs.Steady.{FindsIt, IsSteady, RefusesIt, TakesIt, scene_of};
ghost use Rattle.law_running_line.specs.Timed.{AreRelated};
ghost use Rattle.law_running_line.specs.Turned.{TurnsTo};
ghost use Rattle.law_running_line.specs.Turns.{HasNone, IsAt, Turns};
ghost use Rattle.law_running_line.specs.Waits.{Waits};
ghost use Rattle.law_running_line.specs.Wire.{Awaits, Wire, asked_for};

/// Where nothing is asked of the reading, a record is doubled: the board goes over while the
/// upstream machine's sensor lines are late, and its connection is closed. And where a board is
/// let go behind the reading, that run's first step is none.
pub fn a_record_is_doubled_without_the_reading()
    ensures { IsDoubled }
{
    law_link_messages::laws::fit_messages_are_sayable();
}

/// Behind the reading the same close finds the upstream machine knowing that the board has begun:
/// its outlet holds the record.
pub fn behind_the_reading_the_record_is_held()
    ensures { IsHeldBehind }
{}

/// What waits on a link goes on, where the machine below asks for a connection, and where an end
/// that awaits one leaves it: lost before it was taken above, or refused or given up below.
pub fn what_waits_goes_on()
    ensures asked { (above : Machine) (below : NodeState) (unread : List Sight) (wires : List Wire)
        → may_of below inputs.Connect ≡ may_do → Waits above below.lane.body unread wires
        → Waits above below.lane.body unread (map (given_up Entry) wires ++ asked_for ∷ []) }
    ensures lost { (above below : Machine) (unread : List Sight) (wires : List Wire) (place : ℕ)
        (wire : Wire) → slice_get wires place ≡ Some wire → wire.above ≡ Awaits
        → Waits above below unread wires
        → Waits above below unread (slice_set wires place (let_be Exit wire)) }
    ensures given_up { (above below : Machine) (unread : List Sight) (wires : List Wire)
        (place : ℕ) (wire : Wire) → slice_get wires place ≡ Some wire → wire.below ≡ Awaits
        → Waits above below unread wires
        → Waits above below unread (slice_set wires place (let_be Entry wire)) }
{}

/// New machines whose numbers differ stand in the relation of running machines: that of each link
/// and each machine, with what waits on each link, and the messages that the bytes on their way
/// are. And so they do behind a step in which a connection is asked for, an end that awaits one
/// leaves it, or a board moves at a gap, whatever is read before.
pub fn running_machines_stay_in_relation()
    ensures new { (s : Running) → IsNew s → NumbersDiffer s → AreInRelation s }
    ensures asks { (machine : ℕ) (before after : Running) → Asks machine before after
        → AreInRelation before → AreInRelation after }
    ensures lets_be { (machine : ℕ) (side : Side) (before after : Running)
        → LetsBe machine side before after → AreInRelation before → AreInRelation after }
    ensures moves { (reading : Reading) (gap : ℕ) (step : Move) (before after : Running)
        → Moves reading gap step before after → AreInRelation before → AreInRelation after }
{}

/// Among running machines that stand in the relation, the step that a machine makes in a turn keeps
/// the relation of both its links and of the machine: where it reads a front of the events of each
/// side and takes nothing, whatever it leaves unread, so that a free intake of a session that stands
/// has read all still; and where it takes an input that makes no connection and changes no board by
/// hand, once it has read what its boards did, and each word in time.
pub fn a_step_in_a_turn_keeps_both_links()
    ensures reads { (t : Trace) (s : Running) (j : ℕ) (desk : Desk) (read rest : List Sight)
        → Stands t s → ReadsFront (unread_by (j + 1) s) read rest
        → IsSteady t s j rest (machine_step desk read Nothing (node_in s (j + 1)).lane.body) }
    ensures free { (t : Trace) (s : Running) (j : ℕ) (desk : Desk) (read rest : List Sight)
        → Stands t s → ReadsFront (unread_by (j + 1) s) read rest
        → IsFreeRead rest (machine_step desk read Nothing (node_in s (j + 1)).lane.body).body }
    ensures takes { (t : Trace) (s : Running) (j : ℕ) (desk : Desk) (read rest : List Sight)
        (event : Event) → Stands t s → ReadsFront (unread_by (j + 1) s) read rest
        → IsPlain event (scene_of t s j) → IsMetInTime event rest → IsReadEnough rest (t.ghost j)
        → IsSteady t s j rest (machine_step desk read event (node_in s (j + 1)).lane.body) }
{}

/// And so does a step in which a connection is made, whatever it leaves unread: its exit takes
/// one that it awaits, while it has none; its entry finds one made that it awaits; or its exit
/// refuses one, while the first goes on. What was said on the connection is on its way from then on,
/// and the link stands where the other end has that connection too.
pub fn a_connection_in_a_turn_keeps_both_links()
    ensures accepted { (t : Trace) (s : Running) (j : ℕ) (desk : Desk) (read rest : List Sight)
        (place : ℕ) → Stands t s → ReadsFront (unread_by (j + 1) s) read rest
        → (at : IsAt (j + 1) Exit place Awaits s) → HasNone (j + 1) Exit s
        → TakesIt t s j rest at.wire (machine_step desk read Accepted (node_in s (j + 1)).lane.body) }
    ensures come { (t : Trace) (s : Running) (j : ℕ) (desk : Desk) (read rest : List Sight)
        (place : ℕ) → Stands t s → ReadsFront (unread_by (j + 1) s) read rest
        → (at : IsAt (j + 1) Entry place Awaits s)
        → FindsIt t s j rest at.wire (machine_step desk read Connect (node_in s (j + 1)).lane.body) }
    ensures second { (t : Trace) (s : Running) (j : ℕ) (desk : Desk) (read rest : List Sight)
        → Stands t s → ReadsFront (unread_by (j + 1) s) read rest
        → RefusesIt t s j rest (machine_step desk read Second (node_in s (j + 1)).lane.body) }
{}

/// The relation goes on in a turn that has read all before it takes an input, whatever the input is,
/// a change by hand too: behind it what is between the machine and its neighbours is what its scene
/// says behind its acts; and so it goes on by the machine's number, with some trace.
pub fn the_relation_goes_on_in_a_turn()
    ensures turned { (t : Trace) (j : ℕ) (input : Input) (moment : ℤ) (before after : Running)
        (told : List Act) → Stands t before
        → (turn : Turns Strictly (j + 1) input moment before after told) → TurnsTo j t turn }
    ensures related { (machine : ℕ) (input : Input) (moment : ℤ) (before after : Running)
        (told : List Act) → Turns Strictly machine input moment before after told
        → AreInRelation before → AreInRelation after }
{
    law_link_messages::laws::the_words_of_a_piece_are_the_oldest_messages();
    law_link_messages::laws::a_frame_with_a_nul_is_a_wrong_word();
    law_link_messages::laws::fit_messages_are_sayable();
    law_link_messages::laws::the_words_of_fit_messages_are_fit();
    law_link_messages::laws::the_words_behind_a_nul_are_fit();
}

/// Where running machines stand in the relation, each board's record has one standing: with one
/// machine, or in one handover between two neighbours.
pub fn one_standing_in_the_relation()
    ensures { (s : Running) → AreInRelation s → HasOneStanding (line_of s) }
{}

/// There are such runs: of two new machines the upstream one keeps a board, and they connect. It is
/// one behind the reading, too.
pub fn new_machines_connect_in_a_run_that_reads_first()
    ensures { Begins }
{}

/// THE LAW OVER RUNS: in whatever order the turns of machines fall, and whatever connections between
/// them break, are refused, half made or made anew: from new machines whose numbers differ, behind
/// each run in which every machine reads all that its sensors saw before it takes an input, each
/// board's record has one standing; no two boards share an id; and each id of a board or a record
/// was made by one of the machines.
pub fn one_standing_in_each_run_that_reads_first()
    ensures standing { (s u : Running) (told : List Act) → IsNew s → NumbersDiffer s
        → RunsTo Strictly s told u → HasOneStanding (line_of u) }
    ensures ids { (s u : Running) (told : List Act) → IsNew s → NumbersDiffer s
        → RunsTo Strictly s told u → HasUniqueIds u }
{
    law_link_messages::laws::the_words_of_a_piece_are_the_oldest_messages();
    law_link_messages::laws::a_frame_with_a_nul_is_a_wrong_word();
    law_link_messages::laws::fit_messages_are_sayable();
    law_link_messages::laws::the_words_of_fit_messages_are_fit();
    law_link_messages::laws::the_words_behind_a_nul_are_fit();
}

/// Where each board is let go behind the reading, more goes on beside the relation: no board has
/// begun unread at an exit; a board that has begun unread at an entry hasn't gone across; and each
/// word on its way waits for no reading, or was said behind all that is unread at its receiver
/// (`AreRelated`; where no more is asked of the reading, it is the relation alone). New machines have
/// it, and it goes on in each step of a run: a turn, which takes what was said behind all that it has
/// read, whatever else it leaves unread; a connection that is asked for, or left; a board that moves,
/// or is let go.
pub fn the_relation_goes_on_behind_the_reading()
    ensures new { (reading : Reading) (s : Running) → IsNew s → NumbersDiffer s
        → AreRelated reading s }
    ensures steps { (before after : Running) (told : List Act) → RunSteps Behind before told after
        → AreRelated Behind before → AreRelated Behind after }
{
    law_link_messages::laws::the_words_of_a_piece_are_the_oldest_messages();
    law_link_messages::laws::a_frame_with_a_nul_is_a_wrong_word();
    law_link_messages::laws::fit_messages_are_sayable();
    law_link_messages::laws::the_words_of_fit_messages_are_fit();
    law_link_messages::laws::the_words_behind_a_nul_are_fit();
}

/// THE LAW OVER RUNS THAT A CONTROL CAN KEEP: from new machines whose numbers differ, behind each run
/// in which a message is heard once all is read that its receiver's sensors had seen before it was
/// said, and each board is let go behind the reading, each board's record has one standing; no two
/// boards share an id; and each id of a board or a record was made by one of the machines.
pub fn one_standing_in_each_run_that_lets_go_behind_the_reading()
    ensures standing { (s u : Running) (told : List Act) → IsNew s → NumbersDiffer s
        → RunsTo Behind s told u → HasOneStanding (line_of u) }
    ensures ids { (s u : Running) (told : List Act) → IsNew s → NumbersDiffer s
        → RunsTo Behind s told u → HasUniqueIds u }
{
    law_link_messages::laws::the_words_of_a_piece_are_the_oldest_messages();
    law_link_messages::laws::a_frame_with_a_nul_is_a_wrong_word();
    law_link_messages::laws::fit_messages_are_sayable();
    law_link_messages::laws::the_words_of_fit_messages_are_fit();
    law_link_messages::laws::the_words_behind_a_nul_are_fit();
}
