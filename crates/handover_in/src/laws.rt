//! What holds of an intake whatever it meets. Each law is a contract over the definitions that
//! `Intake::apply` meets.

ghost use Rattle.std.specs.Prelude.{◌≡◌, ◌↔◌, IsSome, None, ◌++◌, List, [], Some, true, false, option_map};
ghost use Rattle.std.specs.List.{list_all};
ghost use Rattle.line_base.specs.declared.states.Seen.{Seen as Sight};
ghost use Rattle.line_base.specs.declared.states.SensorEvent.{SensorEvent as Event};
ghost use Rattle.handover_in.specs.declared.input.InInput.{InInput as Input};
ghost use Rattle.handover_in.specs.declared.input.InInput.TheVariants.{Unready, Start, Closed};
ghost use Rattle.handover_in.specs.State.{InState, at_rest, held, own_of_phase, takes_offers};
ghost use Rattle.handover_in.specs.Row.{InRow, intake_row};
ghost use Rattle.handover_in.specs.Table.{IsIntakeRow};
ghost use Rattle.handover_in.specs.Together.{IsIntakeTogether};
ghost use Rattle.handover_in.specs.Links.{is_unlinked_phase, is_own, all_sent};
ghost use Rattle.handover_in.specs.Deeds.{NamesRecord};
ghost use Rattle.handover_in.specs.Sights.{own_after_all, all_sensed, own_by_all};
ghost use Rattle.handover_in.specs.Given.{IsGiven, breach_of};
ghost use Rattle.handover_in.specs.Run.{step, after_all};
ghost use Rattle.handover_in.specs.Records.{list_of, id_of, all_in, all_out, held_by_all};
ghost use Rattle.handover_in.specs.Offers.{is_start, starts_at, offer_after, offer_after_all, ready_after, ready_after_all};
ghost use Rattle.handover_in.specs.Ends.{nothing_yet, learned_after, learned_after_all, IsLearned, IsDriven, drive_after_all, IsInPlay};

/// The plain program that `Intake::apply` meets computes exactly the rows of the intake table.
#[tactic(auto, using(crate::proofs::Rows::rows_exactly))]
pub fn rows_are_those_of_the_table()
    ensures { (s : InState) (input : Input) (row : InRow)
        → (intake_row s input ≡ Some row) ↔ IsIntakeRow s input row }
{}

/// The table has a row for what is no message exactly where it is given: for what the machine
/// says and starts on its condition, and for each sensor event, fault, close and new connection.
#[tactic(auto, using(crate::proofs::IntakeLaws::given_exactly))]
pub fn rows_stand_where_given()
    ensures { (s : InState) (input : Input) → breach_of input ≡ None
        → IsSome (intake_row s input) ↔ IsGiven s input }
{}

/// What stands together in an intake stands together after every row: it is ready only while no
/// handover is open, and has an offer only where it takes offers. So what a ready intake's machine
/// says or starts has its row, whatever the phase.
#[tactic(auto, using(crate::proofs::Together::kept, crate::proofs::Together::offer_taken, crate::proofs::Together::unready_given, crate::proofs::Together::start_given))]
pub fn rows_keep_what_stands_together()
    ensures row { (s : InState) (input : Input) (row : InRow) → intake_row s input ≡ Some row
        → IsIntakeTogether s → IsIntakeTogether row.after }
    ensures offer { (s : InState) → IsIntakeTogether s → IsSome s.offer
        → takes_offers s.phase ≡ true }
    ensures unready { (s : InState) → IsIntakeTogether s → s.ready ≡ true → IsGiven s Unready }
    ensures start { (s : InState) → IsIntakeTogether s → s.ready ≡ true → IsSome s.offer
        → IsGiven s Start }
{}

/// Without a connection an intake is idle or waits for a board. There its events, faults and
/// closes send nothing, and it stays so; and a close leads there from everywhere, and sends
/// nothing.
#[tactic(auto, using(crate::proofs::Deeds::unlinked_silent, crate::proofs::Deeds::all_silent, crate::proofs::Deeds::close_silent))]
pub fn without_a_connection_nothing_is_sent()
    ensures step { (s : InState) (input : Input) → is_unlinked_phase s.phase ≡ true
        → is_own input ≡ true → ((step s input).act.send ≡ None)
        × (is_unlinked_phase (step s input).after.phase ≡ true) }
    ensures run { (s : InState) (inputs : List Input) → is_unlinked_phase s.phase ≡ true
        → list_all is_own inputs ≡ true → (all_sent s inputs ≡ [])
        × (is_unlinked_phase (after_all s inputs).phase ≡ true) }
    ensures close { (s : InState) → ((step s Closed).act.send ≡ None)
        × (is_unlinked_phase (step s Closed).after.phase ≡ true) }
{}

/// A deed names its record: `Starts` that of the offer, which is held then, and `Settles` and
/// `Drops` that which was held. A record is handed on exactly where it settles, and it is the one
/// that was held. Without a deed the held record stays.
#[tactic(auto, using(crate::proofs::Deeds::deeds_name))]
pub fn deeds_name_their_record()
    ensures { (s : InState) (input : Input)
        → NamesRecord s (step s input) (step s input).act.deed }
{}

/// A record that goes in comes out as it was, once and in order: over any list of inputs, the
/// record that was held and those of the transports that started are those that were handed on or
/// dropped, and the one that is still held.
#[tactic(auto, using(crate::proofs::IntakeLaws::records_balance))]
pub fn records_come_out_as_they_were()
    ensures { (s : InState) (inputs : List Input)
        → list_of (held s) ++ all_in s inputs ≡ all_out s inputs
        ++ list_of (held (after_all s inputs)) }
{}

/// A record is held exactly from the start of its transport to the deed that ends its handover:
/// `Settles` or `Drops`.
#[tactic(auto, using(crate::proofs::IntakeLaws::holds_by_deeds))]
pub fn holds_from_start_to_end()
    ensures { (s : InState) (inputs : List Input)
        → id_of (held (after_all s inputs)) ≡ held_by_all (id_of (held s)) s inputs }
{}

/// A transport starts exactly where the machine says so while no handover is open, it is ready,
/// and a board is offered.
#[tactic(auto, using(crate::proofs::IntakeLaws::starts_exactly))]
pub fn starts_where_ready_and_offered()
    ensures { (s : InState) (input : Input)
        → is_start (step s input).act.deed ≡ starts_at s input }
{}

/// The offer is the record that the last offer brought, and it and the readiness follow from what
/// was met: a start and a close clear both.
#[tactic(auto, using(crate::proofs::IntakeLaws::clears_exactly))]
pub fn starts_and_closes_clear_offers()
    ensures offer { (s : InState) (input : Input) (row : InRow) → intake_row s input ≡ Some row
        → row.after.offer ≡ offer_after s input }
    ensures ready { (s : InState) (input : Input) (row : InRow) → intake_row s input ≡ Some row
        → row.after.ready ≡ ready_after s.ready input }
{}

/// And so they do over any list of inputs.
#[tactic(auto, using(crate::proofs::Sights::offers_after_all, crate::proofs::Sights::readies_after_all))]
pub fn offers_follow_from_what_was_met()
    ensures offer { (s : InState) (inputs : List Input)
        → (after_all s inputs).offer ≡ offer_after_all s.offer s inputs }
    ensures ready { (s : InState) (inputs : List Input)
        → (after_all s inputs).ready ≡ ready_after_all s.ready s inputs }
{}

/// What the sensors saw of the held board follows from the events since its start: over any list
/// of inputs, and over a list of events alone, as long as the board is held.
#[tactic(auto, using(crate::proofs::Sights::sees_by_events, crate::proofs::Sights::held_sees_all, crate::proofs::Sights::own_append))]
pub fn sights_follow_from_the_events()
    ensures inputs { (s : InState) (inputs : List Input)
        → own_of_phase (after_all s inputs).phase ≡ own_by_all (own_of_phase s.phase) s inputs }
    ensures events { (s : InState) (events : List Event)
        → IsSome (held (after_all s (all_sensed events)))
        → own_of_phase (after_all s (all_sensed events)).phase
        ≡ option_map (λ own. own_after_all own events) (own_of_phase s.phase) }
    ensures append { (own : Sight) (first rest : List Event)
        → own_after_all own (first ++ rest) ≡ own_after_all (own_after_all own first) rest }
{}

/// A deed is as it was learned, looking back over what was met since the transport started.
///
/// A board settles only once its own sensor saw it inside, and the upstream machine said in its
/// connection that it has begun to leave or has left, or a new connection stands. It is dropped
/// only where the sensors saw that it didn't come, or that it was taken out; and `taken` says
/// which.
#[tactic(auto, using(crate::proofs::IntakeLaws::deeds_are_learned))]
pub fn deeds_are_as_they_were_learned()
    ensures { (inputs : List Input) (input : Input)
        → IsLearned
        (learned_after (learned_after_all nothing_yet at_rest inputs) input
        (intake_row (after_all at_rest inputs) input)) input
        (step (after_all at_rest inputs) input).act
        (step (after_all at_rest inputs) input).act.deed }
{}

/// Which phases come up: a transport runs only until the board is inside or was taken out, and a
/// board is waited for only where it lies between the machines, or is inside and nobody said that
/// it has left.
#[tactic(auto, using(crate::proofs::IntakeLaws::phases_in_play))]
pub fn phases_that_come_up()
    ensures { (inputs : List Input) → IsInPlay (after_all at_rest inputs).phase }
{}

/// The drive is on while a board is taken in, and it may run on for a board that has left and
/// whose connection was closed. Else it is off.
#[tactic(auto, using(crate::proofs::IntakeLaws::drive_is_driven))]
pub fn drive_runs_while_taking()
    ensures { (inputs : List Input)
        → IsDriven (after_all at_rest inputs).phase (drive_after_all false at_rest inputs) }
{}
