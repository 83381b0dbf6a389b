//! What holds of an end of a session whatever it meets. Each law is a contract over the
//! definitions that the calls of `Session` meet.

ghost use Rattle.std.specs.Prelude.{◌≡◌, ◌≢◌, ◌↔◌, ◌≤◌, ◌⊎◌, ◌&&◌, not, ℕ, Bool, true, false, IsSome, List, [], ◌∷◌, ◌++◌, codes, Option, Some, None};
ghost use Rattle.line_base.specs.declared.states.Role.{Role as Part};
ghost use Rattle.line_base.specs.declared.states.Role.TheVariants.{Upstream};
ghost use Rattle.hermes_horizontal.specs.declared.kind.Kind.{Kind};
ghost use Rattle.hermes_horizontal.specs.Rows.{kind_text};
ghost use Rattle.hermes_horizontal.specs.declared.message.Horizontal.{Horizontal};
ghost use Rattle.hermes_horizontal.specs.declared.message.Horizontal.TheVariants.{ServiceDescription};
ghost use Rattle.hermes_horizontal.specs.declared.message.Service.{Service};
ghost use Rattle.session_core.specs.declared.state.SessionState.TheVariants.{NotConnected, Handshake, Standing};
ghost use Rattle.session_core.specs.declared.actions.Action.TheVariants.{Tell, Close};
ghost use Rattle.session_core.specs.declared.actions.Tell.TheVariants.{Unsettled};
ghost use Rattle.session_core.specs.End.{SessionEnd, at_rest, no_features};
ghost use Rattle.session_core.specs.Acts.{two};
ghost use Rattle.session_core.specs.Breach.{unexpected};
ghost use Rattle.session_core.specs.Input.{Input, heard, closed};
ghost use Rattle.session_core.specs.Row.{SessionRow, session_row, row};
ghost use Rattle.session_core.specs.Table.{IsSessionRow};
ghost use Rattle.session_core.specs.Given.{IsGiven, IsNoMessage};
ghost use Rattle.session_core.specs.Passing.{passed, passing};
ghost use Rattle.session_core.specs.Alive.{pongs, asked};
ghost use Rattle.session_core.specs.Standing.{described, comes_unsettled, describes};
ghost use Rattle.session_core.specs.States.{closes, closes_at, stands_at, state_after, tells_intake, is_upstream};
ghost use Rattle.session_core.specs.Run.{after_all, after_ticks, is_described_after};

/// The plain program that the calls meet computes exactly the rows of the session table.
#[tactic(auto, using(crate::proofs::Rows::rows_exactly))]
pub fn rows_are_those_of_the_table()
    ensures { (s : SessionEnd) (input : Input) (row : SessionRow)
        → (session_row s input ≡ Some row) ↔ IsSessionRow s input row }
{}

/// The table has a row for what is no message exactly where it is given: a connection where there
/// is none, a second one to the server, and all else where there is a connection. A message has
/// a row only there.
#[tactic(auto, using(crate::proofs::RowLaws::given_exactly, crate::proofs::RowLaws::only_given))]
pub fn rows_stand_where_given()
    ensures exactly { (s : SessionEnd) (input : Input) → IsNoMessage input
        → IsSome (session_row s input) ↔ IsGiven s input }
    ensures only { (s : SessionEnd) (input : Input) (row : SessionRow)
        → session_row s input ≡ Some row → IsGiven s input }
{}

/// A session that isn't standing passes nothing on. A standing one passes on the message that it
/// heard, as it was, and only one of a kind that the other part sends.
#[tactic(auto, using(crate::proofs::RowLaws::passes_exactly, crate::proofs::RowLaws::passes_nothing))]
pub fn only_a_standing_session_passes_on()
    ensures nothing { (s : SessionEnd) (input : Input) (row : SessionRow)
        → session_row s input ≡ Some row → s.state ≢ Standing → passed row.actions ≡ [] }
    ensures message { (s : SessionEnd) (input : Input) (row : SessionRow)
        → session_row s input ≡ Some row → passed row.actions ≡ passing s input }
{}

/// An end stands only after the other has described itself: the downstream end after the upstream
/// end's ServiceDescription, and the other way round. It then knows the features
/// that were listed, and before it knows of none.
#[tactic(auto, using(crate::proofs::RowLaws::stands_by_description, crate::proofs::RowLaws::stands_described, crate::proofs::RowLaws::features_unknown))]
pub fn an_end_stands_after_the_other_described_itself()
    ensures step { (s : SessionEnd) (input : Input) (row : SessionRow)
        → session_row s input ≡ Some row → s.state ≢ Standing → row.after.state ≡ Standing
        → (s.state ≡ Handshake) × (described input ≡ Some row.after.peer) }
    ensures run { (role : Part) (inputs : List Input)
        → (after_all (at_rest role) inputs).state ≡ Standing
        → is_described_after false (at_rest role) inputs ≡ true }
    ensures unknown { (role : Part) (inputs : List Input)
        → (after_all (at_rest role) inputs).state ≢ Standing
        → (after_all (at_rest role) inputs).peer ≡ no_features }
{}

/// An upstream end never comes to stand while its outlet holds a board, and does not describe
/// itself then: it tells that the handover is unsettled, and closes.
#[tactic(auto, using(crate::proofs::RowLaws::stands_settled, crate::proofs::RowLaws::describes_settled, crate::proofs::RowLaws::closes_unsettled))]
pub fn an_upstream_end_shakes_no_hands_while_its_outlet_holds()
    ensures stands { (s : SessionEnd) (input : Input) (row : SessionRow) → s.role ≡ Upstream
        → session_row s input ≡ Some row → s.state ≢ Standing → row.after.state ≡ Standing
        → comes_unsettled input ≡ false }
    ensures describes { (s : SessionEnd) (input : Input) (row : SessionRow) → s.role ≡ Upstream
        → session_row s input ≡ Some row → describes row.actions ≡ true
        → comes_unsettled input ≡ false }
    ensures closes { (s : SessionEnd) (service : Service) → s.role ≡ Upstream → s.state ≡ Handshake
        → session_row s (heard (ServiceDescription service) true)
        ≡ row (at_rest Upstream) (two (Tell Unsettled) Close) }
{}

/// Each ping that is heard is answered by one pong with its Id, and no other pong is sent.
#[tactic(auto, using(crate::proofs::RowLaws::pongs_exactly))]
pub fn a_pong_carries_the_id_of_its_ping()
    ensures { (s : SessionEnd) (input : Input) (row : SessionRow) → session_row s input ≡ Some row
        → pongs row.actions ≡ asked input }
{}

/// A peer that stays silent is given up at the fifth tick, and not before: always in the
/// handshake, and in a standing session exactly if it listed that it answers CheckAlive.
#[tactic(auto, using(crate::proofs::Silence::handshake_ends, crate::proofs::Silence::listed_ends, crate::proofs::Silence::unlisted_stays))]
pub fn a_silent_peer_is_given_up_at_the_fifth_tick()
    ensures handshake { (s : SessionEnd) → s.state ≡ Handshake → s.silent ≡ 0
        → ((after_ticks 4 s).state ≡ Handshake) × ((after_ticks 5 s).state ≡ NotConnected) }
    ensures listed { (s : SessionEnd) → s.state ≡ Standing → s.silent ≡ 0
        → s.peer.check_alive ≡ true → ((after_ticks 4 s).state ≡ Standing)
        × ((after_ticks 5 s).state ≡ NotConnected) }
    ensures unlisted { (s : SessionEnd) (ticks : ℕ) → s.state ≡ Standing
        → s.peer.check_alive ≡ false → (after_ticks ticks s).state ≡ Standing }
{}

/// The count of silent ticks begins anew at a connection and at each message that is taken, and
/// never goes over five.
#[tactic(auto, using(crate::proofs::Silence::heard_anew, crate::proofs::Silence::opened_anew, crate::proofs::Silence::silent_most))]
pub fn the_silent_count_begins_anew()
    ensures heard { (s : SessionEnd) (message : Horizontal) (unsettled : Bool) (row : SessionRow)
        → session_row s (heard message unsettled) ≡ Some row → row.after.silent ≡ 0 }
    ensures opened { (s : SessionEnd) (input : Input) (row : SessionRow)
        → session_row s input ≡ Some row → s.state ≡ NotConnected → row.after.silent ≡ 0 }
    ensures most { (role : Part) (inputs : List Input)
        → (after_all (at_rest role) inputs).silent ≤ 5 }
{}

/// The state after an input is known beforehand: a connection begins in the handshake, it ends
/// where it is closed, the session stands from the peer's description on, and else the state
/// stays.
#[tactic(auto, using(crate::proofs::States::state_exactly))]
pub fn the_state_follows_from_the_input()
    ensures { (s : SessionEnd) (input : Input) (row : SessionRow) → session_row s input ≡ Some row
        → row.after.state ≡ state_after s input }
{}

/// An end closes its connection at a shutdown, at a tick that gives the peer up, and where the
/// peer describes itself to an upstream end whose outlet holds a board, and nowhere else. It is
/// then as an end without a connection, and only a close makes it so.
#[tactic(auto, using(crate::proofs::States::closes_exactly, crate::proofs::States::closed_rests, crate::proofs::States::rests_exactly))]
pub fn an_end_closes_where_it_gives_the_connection_up()
    ensures closes { (s : SessionEnd) (input : Input) (row : SessionRow)
        → session_row s input ≡ Some row → closes row.actions ≡ closes_at s input }
    ensures rests { (s : SessionEnd) (input : Input) (row : SessionRow)
        → session_row s input ≡ Some row → closes row.actions ≡ true → row.after ≡ at_rest s.role }
    ensures only { (s : SessionEnd) (input : Input) (row : SessionRow)
        → session_row s input ≡ Some row → row.after.state ≡ NotConnected
        → (row.after ≡ at_rest s.role) × ((closes row.actions ≡ true) ⊎ (input ≡ closed)) }
{}

/// An end comes to stand exactly where the peer describes itself, unless it is an upstream end
/// whose outlet holds a board. A downstream end, and no other, then tells its intake.
#[tactic(auto, using(crate::proofs::States::stands_exactly, crate::proofs::States::tells_exactly))]
pub fn an_end_comes_to_stand_at_a_description()
    ensures stands { (s : SessionEnd) (input : Input) (row : SessionRow)
        → session_row s input ≡ Some row → s.state ≢ Standing
        → (row.after.state ≡ Standing) ↔ (stands_at s input ≡ true) }
    ensures tells { (s : SessionEnd) (input : Input) (row : SessionRow)
        → session_row s input ≡ Some row
        → tells_intake row.actions ≡ (stands_at s input && not (is_upstream s.role)) }
{}

/// An end keeps its part.
#[tactic(auto, using(crate::proofs::RowLaws::part_stays))]
pub fn an_end_keeps_its_part()
    ensures { (s : SessionEnd) (input : Input) (row : SessionRow) → session_row s input ≡ Some row
        → row.after.role ≡ s.role }
{}

/// What is told of a breach is `unexpected` and the name of the message.
#[tactic(auto, using(crate::proofs::Texts::unexpected_names))]
pub fn a_breach_names_its_message()
    ensures { (kind : Kind) → unexpected kind ≡ codes "unexpected " ++ kind_text kind }
{}
