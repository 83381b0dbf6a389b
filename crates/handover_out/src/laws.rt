//! What holds of an outlet whatever it meets. Each law is a contract over the definitions that
//! `Outlet::apply` meets.

ghost use Rattle.std.specs.Prelude.{◌≡◌, ◌↔◌, IsSome, is_some, ◌++◌, ◌&&◌, not, List, [], ℕ, Bool, Option, Some, None, true, false};
ghost use Rattle.std.specs.List.{list_all};
ghost use Rattle.line_base.specs.declared.states.Transfer.{Transfer as Said};
ghost use Rattle.board_record.specs.declared.record.Record.{Record as Board};
ghost use Rattle.transfer_state.specs.Outlet.{out_ends};
ghost use Rattle.handover_out.specs.declared.input.OutInput.{OutInput as Input};
ghost use Rattle.handover_out.specs.declared.input.OutInput.TheVariants.{Revoke, Start, Stop, Fault, Closed};
ghost use Rattle.handover_out.specs.declared.phase.Phase.TheVariants.{Idle, Moving};
ghost use Rattle.handover_out.specs.State.{OutState, at_rest, held, would_open};
ghost use Rattle.handover_out.specs.Row.{OutRow, outlet_row};
ghost use Rattle.handover_out.specs.Given.{IsGiven, breach_of};
ghost use Rattle.handover_out.specs.Table.{IsOutletRow};
ghost use Rattle.handover_out.specs.Together.{IsOutletTogether, AreGiven};
ghost use Rattle.handover_out.specs.Run.{step, after_all};
ghost use Rattle.handover_out.specs.Records.{list_of, id_of, all_in, all_out, held_by_all};
ghost use Rattle.handover_out.specs.Deeds.{NamesRecord};
ghost use Rattle.handover_out.specs.Links.{is_unlinked_phase, is_own, all_sent};
ghost use Rattle.handover_out.specs.Offers.{is_opening, opens_at, is_refusing, refuses_at, takes_start, offered_after, ready_after, touched_after, offered_after_all, ready_after_all};
ghost use Rattle.handover_out.specs.Sensors.{between_after_all, IsSensed, own_of, deed_of_end, is_moving, drive_after_all};

/// The plain program that `apply` meets computes exactly the rows of the outlet table.
#[tactic(auto, using(crate::proofs::Rows::rows_exactly))]
pub fn rows_are_those_of_the_table()
    ensures { (s : OutState) (input : Input) (row : OutRow)
        → (outlet_row s input ≡ Some row) ↔ IsOutletRow s input row }
{}

/// What can stand together does so in a new outlet, and after every row whose input was given
/// where it is to be given.
#[tactic(auto, using(crate::proofs::Together::together_rest, crate::proofs::Together::kept, crate::proofs::Together::stands_together))]
pub fn rows_keep_what_stands_together()
    ensures rest { IsOutletTogether at_rest }
    ensures row { (s : OutState) (input : Input) (row : OutRow) → IsGiven s input
        → outlet_row s input ≡ Some row → IsOutletTogether s → IsOutletTogether row.after }
    ensures run { (inputs : List Input) → AreGiven at_rest inputs
        → IsOutletTogether (after_all at_rest inputs) }
{}

/// A board is offered, and the downstream machine is ready, only while the outlet is idle: so what
/// is offered may be revoked. The board that is offered, or held while its connection stands, is
/// the one last offered.
#[tactic(auto, using(crate::proofs::Together::offered_idle, crate::proofs::Together::revoke_given, crate::proofs::Together::ready_idle, crate::proofs::Together::offered_touched, crate::proofs::Together::held_touched))]
pub fn one_board_is_in_play()
    ensures offered { (s : OutState) → IsOutletTogether s → IsSome s.offered → s.phase ≡ Idle }
    ensures revoked { (s : OutState) → IsOutletTogether s → IsSome s.offered → IsGiven s Revoke }
    ensures ready { (s : OutState) → IsOutletTogether s → s.ready ≡ true → s.phase ≡ Idle }
    ensures touched { (s : OutState) (id : ℕ) → IsOutletTogether s → s.offered ≡ Some id
        → s.touched ≡ Some id }
    ensures held { (s : OutState) (board : Board) → IsOutletTogether s → held s ≡ Some board
        → is_unlinked_phase s.phase ≡ false → s.touched ≡ Some board.id }
{}

/// The table has a row for what is no message exactly where it is given: for an offer or a
/// revocation on its condition, and for each sensor event, fault and close.
#[tactic(auto, using(crate::proofs::OutletLaws::given_exactly))]
pub fn rows_stand_where_given()
    ensures { (s : OutState) (input : Input) → breach_of input ≡ None
        → IsSome (outlet_row s input) ↔ IsGiven s input }
{}

/// A record that goes in comes out as it was, once and in order: over any list of inputs, the
/// record that was held and those that went in are those that were given back or let go as their
/// boards left or were lost, and the one that is still held.
#[tactic(auto, using(crate::proofs::OutletLaws::records_balance))]
pub fn records_come_out_as_they_were()
    ensures { (s : OutState) (inputs : List Input)
        → list_of (held s) ++ all_in s inputs ≡ all_out s inputs
        ++ list_of (held (after_all s inputs)) }
{}

/// A record is held exactly from an opening to the deed that ends its handover: `Leaves`,
/// `Returns` or `Loses`.
#[tactic(auto, using(crate::proofs::OutletLaws::holds_by_deeds))]
pub fn holds_from_opening_to_end()
    ensures { (s : OutState) (inputs : List Input)
        → id_of (held (after_all s inputs)) ≡ held_by_all (id_of (held s)) s inputs }
{}

/// A deed names its board: an opening the one that comes with the start, a refusal the one that
/// the start is for, and `Leaves`, `Returns` and `Loses` the one that is held. Its record is given
/// back exactly where it returns.
#[tactic(auto, using(crate::proofs::Deeds::deeds_name))]
pub fn deeds_name_their_record()
    ensures { (s : OutState) (input : Input)
        → NamesRecord s input (step s input) (step s input).act.deed }
{}

/// An outlet opens exactly at a start for the board that is offered, while the downstream machine
/// is ready, and refuses exactly at a start for any other while that machine is ready.
#[tactic(auto, using(crate::proofs::OutletLaws::opens_exactly, crate::proofs::Starts::refuses_exactly))]
pub fn opens_at_a_start_for_the_offered_board()
    ensures opens { (s : OutState) (input : Input)
        → is_opening (step s input).act.deed ≡ opens_at s input }
    ensures refuses { (s : OutState) (input : Input)
        → is_refusing (step s input).act.deed ≡ refuses_at s input }
{}

/// A start that is given opens exactly where `would_open`, and is else refused exactly where the
/// outlet is idle and the downstream machine ready. Elsewhere it has no row. An outlet whose
/// downstream machine is ready is idle.
#[tactic(auto, using(crate::proofs::Starts::opens_given, crate::proofs::Starts::refuses_given, crate::proofs::Starts::starts_given, crate::proofs::Together::ready_takes))]
pub fn a_start_is_opened_refused_or_a_breach()
    ensures opens { (s : OutState) (id : ℕ) (board : Option Board) → IsGiven s (Start id board)
        → is_opening (step s (Start id board)).act.deed ≡ would_open s id }
    ensures refuses { (s : OutState) (id : ℕ) (board : Option Board) → IsGiven s (Start id board)
        → is_refusing (step s (Start id board)).act.deed
        ≡ (takes_start s && not (would_open s id)) }
    ensures row { (s : OutState) (id : ℕ) (board : Option Board) → IsGiven s (Start id board)
        → is_some (outlet_row s (Start id board)) ≡ takes_start s }
    ensures ready { (s : OutState) → IsOutletTogether s → takes_start s ≡ s.ready }
{}

/// What is offered, whether the downstream machine is ready, and the board last offered follow
/// from what was met: a start, opened or refused, clears the first two, and a close all three.
#[tactic(auto, using(crate::proofs::OutletLaws::clears_exactly))]
pub fn starts_and_closes_clear_offers()
    ensures offered { (s : OutState) (input : Input) (row : OutRow) → outlet_row s input ≡ Some row
        → row.after.offered ≡ offered_after s.offered input }
    ensures ready { (s : OutState) (input : Input) (row : OutRow) → outlet_row s input ≡ Some row
        → row.after.ready ≡ ready_after s.ready input }
    ensures touched { (s : OutState) (input : Input) (row : OutRow) → outlet_row s input ≡ Some row
        → row.after.touched ≡ touched_after s input row.after }
{}

/// What is offered after a list of inputs, and whether the downstream machine is ready, follow
/// from those that had a row.
#[tactic(auto, using(crate::proofs::Starts::offered_all, crate::proofs::Starts::ready_all))]
pub fn offers_follow_from_what_was_met()
    ensures offered { (s : OutState) (inputs : List Input)
        → (after_all s inputs).offered ≡ offered_after_all s.offered s inputs }
    ensures ready { (s : OutState) (inputs : List Input)
        → (after_all s inputs).ready ≡ ready_after_all s.ready s inputs }
{}

/// An outlet without a connection sends nothing at its sensors' events, at faults and at closes,
/// and stays without one. A close leads there, and sends nothing.
#[tactic(auto, using(crate::proofs::Deeds::unlinked_silent, crate::proofs::Deeds::all_silent, crate::proofs::Deeds::close_silent))]
pub fn without_a_connection_nothing_is_sent()
    ensures step { (s : OutState) (input : Input) → is_unlinked_phase s.phase ≡ true
        → is_own input ≡ true → ((step s input).act.send ≡ None)
        × (is_unlinked_phase (step s input).after.phase ≡ true) }
    ensures run { (s : OutState) (inputs : List Input) → is_unlinked_phase s.phase ≡ true
        → list_all is_own inputs ≡ true → (all_sent s inputs ≡ [])
        × (is_unlinked_phase (after_all s inputs).phase ≡ true) }
    ensures close { (s : OutState) → ((step s Closed).act.send ≡ None)
        × (is_unlinked_phase (step s Closed).after.phase ≡ true) }
{}

/// A deed is as the sensors have it. A record is given back only where its board has not begun to
/// leave or has come back; it leaves only as its board was seen to leave, and is lost only as its
/// board was taken out from between the machines. A close with the board between the machines
/// keeps its record, and is no deed.
#[tactic(auto, using(crate::proofs::OutletLaws::deeds_are_sensed, crate::proofs::OutletLaws::close_keeps))]
pub fn deeds_are_as_the_sensors_have_it()
    ensures deeds { (inputs : List Input) (input : Input)
        → IsSensed (between_after_all false at_rest inputs) input
        (step (after_all at_rest inputs) input).act.deed }
    ensures close { (inputs : List Input) → between_after_all false at_rest inputs ≡ true
        → (step (after_all at_rest inputs) Closed).act.deed ≡ None }
    ensures kept { (inputs : List Input) → between_after_all false at_rest inputs ≡ true
        → held (step (after_all at_rest inputs) Closed).after ≡ held (after_all at_rest inputs) }
{}

/// Where the handover of a moving board ends, by a stop, a fault or a close, its record goes back
/// exactly where the end table says so for what the outlet's own sensors saw. What the downstream
/// machine said decides nothing.
#[tactic(auto, using(crate::proofs::OutletLaws::stop_ends, crate::proofs::OutletLaws::fault_ends, crate::proofs::OutletLaws::close_ends))]
pub fn own_sensors_decide_the_end()
    ensures stop { (board : Board) (begun : Bool) (offered touched : Option ℕ) (ready : Bool)
        (said : Said)
        → (step (record {
          phase = Moving board begun;
          offered = offered;
          touched = touched;
          ready = ready;
        }) (Stop said board.id)).act.deed
        ≡ deed_of_end (out_ends (own_of begun) said) board.id }
    ensures fault { (board : Board) (begun : Bool) (offered touched : Option ℕ) (ready : Bool)
        (said : Said)
        → (step (record {
          phase = Moving board begun;
          offered = offered;
          touched = touched;
          ready = ready;
        }) Fault).act.deed ≡ deed_of_end (out_ends (own_of begun) said) board.id }
    ensures close { (board : Board) (begun : Bool) (offered touched : Option ℕ) (ready : Bool)
        (said : Said)
        → (step (record {
          phase = Moving board begun;
          offered = offered;
          touched = touched;
          ready = ready;
        }) Closed).act.deed ≡ deed_of_end (out_ends (own_of begun) said) board.id }
{}

/// As its acts switch it, the drive is on exactly while the phase is `Moving`: none is left on.
#[tactic(auto, using(crate::proofs::OutletLaws::drive_runs))]
pub fn drive_runs_while_moving()
    ensures { (s : OutState) (inputs : List Input)
        → is_moving (after_all s inputs).phase ≡ drive_after_all (is_moving s.phase) s inputs }
{}
