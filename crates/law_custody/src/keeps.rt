//! What keeps the relation of a link and that of a machine: each event of a machine and of a link,
//! and each move on the floor. Every word that is heard finds a session that takes it and a row,
//! so no machine blames its neighbour.

ghost use Rattle.std.specs.Prelude.{◌≡◌, ◌∷◌, ◌++◌, ◌⊎◌, [], Bool, List, None, Ok, Option, Some, true, false, ℕ};
ghost use Rattle.line_base.specs.declared.states.Quality.{Quality as Grade};
ghost use Rattle.line_base.specs.declared.states.SensorEvent.{SensorEvent as Event};
ghost use Rattle.line_base.specs.declared.states.Side.TheVariants.{Entry};
ghost use Rattle.line_base.specs.declared.states.Transfer.{Transfer as End};
ghost use Rattle.board_record.specs.declared.record.Record.{Record as Board};
ghost use Rattle.board_record.specs.declared.sensed.Sensed.{Sensed as Sight};
ghost use Rattle.hermes_horizontal.specs.declared.message.Horizontal.{Horizontal as Message};
ghost use Rattle.hermes_horizontal.specs.declared.message.Horizontal.TheVariants as message;
ghost use Rattle.hermes_horizontal.specs.declared.message.Service.{Service as Description};
ghost use Rattle.session_core.specs.declared.state.SessionState.TheVariants.{NotConnected, Handshake, Standing};
ghost use Rattle.line_world.specs.declared.board.Board.{Board as OnFloor};
ghost use Rattle.line_world.specs.declared.moves.Move.{Move};
ghost use Rattle.line_world.specs.FloorPlan.{with_new_id, without_board};
ghost use Rattle.line_world.specs.Moves.{Around, around_move, exit_sees, entry_sees};
ghost use Rattle.handover_out.specs.State.{board_of_phase as held_out};
ghost use Rattle.handover_out.specs.declared.input.OutInput.TheVariants as out_input;
ghost use Rattle.handover_out.specs.declared.phase.Phase.{Phase as Out};
ghost use Rattle.handover_out.specs.declared.phase.Phase.TheVariants as out;
ghost use Rattle.handover_in.specs.Row.{InRow, intake_row};
ghost use Rattle.handover_in.specs.State.{may_connect};
ghost use Rattle.handover_in.specs.declared.input.InInput.{InInput as Announced};
ghost use Rattle.handover_in.specs.declared.input.InInput.TheVariants as in_input;
ghost use Rattle.handover_in.specs.declared.phase.Phase.{Phase as In};
ghost use Rattle.handover_in.specs.declared.phase.Phase.TheVariants as inn;
ghost use Rattle.law_custody.specs.Words.{down_words, events_at, sent, starts_in, up_words};
ghost use Rattle.law_custody.specs.Place.{Place};
ghost use Rattle.law_custody.specs.Pair.{Body, Ghost, LinkState, Pair, board_of, keep_at};
ghost use Rattle.law_custody.specs.Contents.{Kept, Looks, OffersFront};
ghost use Rattle.law_custody.specs.Facts.{IsOpen};
ghost use Rattle.law_custody.specs.Hands.{IsOther, PutFor, TakenOut};
ghost use Rattle.law_custody.specs.Talks.{IsCall};
ghost use Rattle.law_custody.specs.Events.{EntryShut, EntryStep, ExitShut, ExitStep, IsContent, StartSaid, StartStep, called_on, cut_on, described_on, gone_by, hearing_down, hearing_up, offered_on, revoked_on, with_unread_down, with_unread_up};
ghost use Rattle.law_custody.specs.Floors.{Lifted};

/// A machine reads an event of its exit: the link below goes on, and the link above sees no
/// difference.
#[tactic(auto, using(crate::proofs::ExitEvents::reads_exit, crate::proofs::ExitEvents::skips_exit))]
pub fn an_exit_reads()
    ensures below { (gone : ℕ → Bool) (g : Ghost) (l : LinkState) (e : Event) (rest : List Sight)
        → Pair g (with_unread_up l (exit_sees e ∷ rest))
        → ExitStep (gone_by gone) g (with_unread_up l (exit_sees e ∷ rest))
        (out_input.Sensed e) rest l.up }
    ensures above { (g : Ghost) (l : LinkState) (e : Event) (rest : List Sight)
        → Pair g (with_unread_down l (exit_sees e ∷ rest)) → Pair g (with_unread_down l rest) }
{}

/// A machine reads an event of its entry: the link above goes on, and the link below sees no
/// difference.
#[tactic(auto, using(crate::proofs::EntryEvents::reads_entry, crate::proofs::EntryEvents::skips_entry))]
pub fn an_entry_reads()
    ensures above { (gone : ℕ → Bool) (kept : List Board) (g : Ghost) (l : LinkState) (e : Event)
        (rest : List Sight) → Pair g (with_unread_down l (entry_sees e ∷ rest))
        → EntryStep (gone_by gone) kept g (with_unread_down l (entry_sees e ∷ rest))
        (in_input.Sensed e) rest l.down }
    ensures below { (g : Ghost) (l : LinkState) (e : Event) (rest : List Sight)
        → Pair g (with_unread_up l (entry_sees e ∷ rest)) → Pair g (with_unread_up l rest) }
{}

/// An exit hears what announces the downstream machine ready or not, and the stop of a transport:
/// its session stands, and the outlet has a row.
pub fn an_exit_hears()
    ensures ready { (gone : ℕ → Bool) (g : Ghost) (l : LinkState) (quality : Grade)
        (rest : List Message) → Pair g (hearing_up l (message.MachineReady quality) rest)
        → (l.exit ≡ Standing)
        × ExitStep (gone_by gone) g
        (hearing_up l (message.MachineReady quality) rest) out_input.MachineReady [] rest }
    ensures revoked { (gone : ℕ → Bool) (g : Ghost) (l : LinkState) (rest : List Message)
        → Pair g (hearing_up l message.RevokeMachineReady rest) → (l.exit ≡ Standing)
        × ExitStep (gone_by gone) g
        (hearing_up l message.RevokeMachineReady rest) out_input.RevokeMachineReady [] rest }
    ensures stop { (gone : ℕ → Bool) (g : Ghost) (l : LinkState) (s : End) (z : ℕ)
        (rest : List Message) → Pair g (hearing_up l (message.StopTransport s z) rest)
        → (l.exit ≡ Standing)
        × ExitStep (gone_by gone) g (hearing_up l (message.StopTransport s z) rest)
        (out_input.Stop s z) [] rest }
{}

/// An exit hears a start. The machine looks up the front of its kept boards, where that is what it
/// offers: it is the record that the intake took, and the outlet opens with it, or the start is
/// refused. Where the intake has gone since, a handover of its own begins.
pub fn an_exit_hears_a_start()
    ensures { (gone : ℕ → Bool) (g : Ghost) (l : LinkState) (z : ℕ) (brought : Option Board)
        (kept : List Board) (rest : List Message)
        → Pair g (hearing_up l (message.StartTransport z) rest)
        → Looks l.outlet.offered kept z brought → OffersFront l.outlet.offered kept
        → ((x : ℕ) → Kept x kept → gone x ≡ true → ⊥)
        → IsContent (gone_by gone) (hearing_up l (message.StartTransport z) rest) kept
        → (l.exit ≡ Standing)
        × StartStep (gone_by gone) g
        (hearing_up l (message.StartTransport z) rest) z brought rest }
{}

/// An exit hears the description of the downstream machine: its session is in the handshake. Where
/// the outlet holds no board the machine answers with its own, and the session stands. An outlet
/// that holds one is stuck, and its connection is closed.
#[tactic(auto, using(crate::proofs::ExitEvents::hears_downstream))]
pub fn an_exit_hears_a_description()
    ensures handshake { (g : Ghost) (l : LinkState) (service : Description) (rest : List Message)
        → Pair g (hearing_up l (message.ServiceDescription service) rest) → IsOpen l.exit
        → l.exit ≡ Handshake }
    ensures answered { (g : Ghost) (l : LinkState) (service answer : Description)
        (rest : List Message) → Pair g (hearing_up l (message.ServiceDescription service) rest)
        → l.exit ≡ Handshake → held_out l.outlet.phase ≡ None
        → Pair g (described_on l service answer rest) }
    ensures contents { (gone : ℕ → Bool) (l : LinkState) (service answer : Description)
        (rest : List Message) (kept : List Board)
        → IsContent (gone_by gone) (hearing_up l (message.ServiceDescription service) rest) kept
        → IsContent (gone_by gone) (described_on l service answer rest) kept }
    ensures held { (g : Ghost) (l : LinkState) (service : Description) (rest : List Message)
        (q : Board) → Pair g (hearing_up l (message.ServiceDescription service) rest)
        → l.exit ≡ Handshake → held_out l.outlet.phase ≡ Some q
        → l.outlet.phase ≡ out.Stuck q false false }
{}

/// An entry hears an offer, its revocation and the end of a transfer: its session stands, and the
/// intake has a row.
pub fn an_entry_hears()
    ensures available { (gone : ℕ → Bool) (kept : List Board) (g : Ghost) (l : LinkState)
        (q : Board) (rest : List Message) → Pair g (hearing_down l (message.BoardAvailable q) rest)
        → (l.entry ≡ Standing)
        × EntryStep (gone_by gone) kept g (hearing_down l (message.BoardAvailable q) rest)
        (in_input.BoardAvailable q) [] rest }
    ensures revoked { (gone : ℕ → Bool) (kept : List Board) (g : Ghost) (l : LinkState)
        (rest : List Message) → Pair g (hearing_down l message.RevokeBoardAvailable rest)
        → (l.entry ≡ Standing)
        × EntryStep (gone_by gone) kept g
        (hearing_down l message.RevokeBoardAvailable rest) in_input.RevokeBoardAvailable [] rest }
    ensures finished { (gone : ℕ → Bool) (kept : List Board) (g : Ghost) (l : LinkState) (s : End)
        (z : ℕ) (rest : List Message)
        → Pair g (hearing_down l (message.TransportFinished s z) rest) → (l.entry ≡ Standing)
        × EntryStep (gone_by gone) kept g (hearing_down l (message.TransportFinished s z) rest)
        (in_input.Finished s z) [] rest }
{}

/// An entry hears the description of the upstream machine: its session is in the handshake, and
/// stands then.
pub fn an_entry_hears_a_description()
    ensures { (gone : ℕ → Bool) (kept : List Board) (g : Ghost) (l : LinkState)
        (service : Description) (rest : List Message)
        → Pair g (hearing_down l (message.ServiceDescription service) rest) → (l.entry ≡ Handshake)
        × EntryStep (gone_by gone) kept g
        (record (hearing_down l (message.ServiceDescription service) rest) { entry = Standing })
        in_input.Stand [] rest }
{}

/// The drive of an exit fails, and that of an entry.
#[tactic(auto, using(crate::proofs::ExitEvents::fails_exit, crate::proofs::EntryEvents::fails_entry))]
pub fn a_drive_fails()
    ensures exit { (gone : ℕ → Bool) (g : Ghost) (l : LinkState) → Pair g (with_unread_up l [])
        → ExitStep (gone_by gone) g (with_unread_up l []) out_input.Fault [] l.up }
    ensures entry { (gone : ℕ → Bool) (kept : List Board) (g : Ghost) (l : LinkState)
        → Pair g (with_unread_down l [])
        → EntryStep (gone_by gone) kept g (with_unread_down l []) in_input.Fault [] l.down }
{}

/// The connection of an end is closed, by itself or by its neighbour: once its machine has read
/// all events.
#[tactic(auto, using(crate::proofs::ExitEvents::closes_exit, crate::proofs::EntryEvents::closes_entry))]
pub fn an_end_is_closed()
    ensures exit { (gone : ℕ → Bool) (g : Ghost) (l : LinkState) → Pair g (with_unread_up l [])
        → ExitShut (gone_by gone) g (with_unread_up l []) }
    ensures entry { (gone : ℕ → Bool) (kept : List Board) (g : Ghost) (l : LinkState)
        → Pair g (with_unread_down l [])
        → EntryShut (gone_by gone) kept g (with_unread_down l []) }
{}

/// An exit offers the front of its machine's boards, and takes its offer back.
#[tactic(auto, using(crate::proofs::ExitEvents::revokes_offer))]
pub fn an_exit_announces()
    ensures offer { (gone : ℕ → Bool) (g : Ghost) (l : LinkState) (q : Board) (ks : List Board)
        → Pair g l → l.exit ≡ Standing → l.outlet.phase ≡ out.Idle → l.outlet.offered ≡ None
        → IsContent (gone_by gone) l (q ∷ ks) → Pair g (offered_on l q)
        × IsContent (gone_by gone) (offered_on l q) (q ∷ ks) }
    ensures revoke { (gone : ℕ → Bool) (g : Ghost) (l : LinkState) (z : ℕ) (ks : List Board)
        → Pair g l → l.outlet.phase ≡ out.Idle → l.outlet.offered ≡ Some z
        → IsContent (gone_by gone) l ks → Pair g (revoked_on l)
        × IsContent (gone_by gone) (revoked_on l) ks }
{}

/// An entry says that it is ready, that it is not, and that a transport starts of the board that
/// is offered.
#[tactic(auto, using(crate::proofs::EntryEvents::says_ready, crate::proofs::EntryEvents::says_unready, crate::proofs::EntryEvents::says_start))]
pub fn an_entry_announces()
    ensures ready { (gone : ℕ → Bool) (kept : List Board) (g : Ghost) (l : LinkState)
        → Pair g (with_unread_down l []) → l.entry ≡ Standing → l.intake.phase ≡ inn.Idle
        → l.intake.ready ≡ false
        → EntryStep (gone_by gone) kept g (with_unread_down l []) in_input.Ready [] l.down }
    ensures unready { (gone : ℕ → Bool) (kept : List Board) (g : Ghost) (l : LinkState)
        → Pair g (with_unread_down l []) → l.intake.phase ≡ inn.Idle → l.intake.ready ≡ true
        → EntryStep (gone_by gone) kept g (with_unread_down l []) in_input.Unready [] l.down }
    ensures start { (gone : ℕ → Bool) (kept : List Board) (g : Ghost) (l : LinkState) (q : Board)
        → Pair g (with_unread_down l []) → l.intake.phase ≡ inn.Idle → l.intake.offer ≡ Some q
        → l.intake.ready ≡ true → StartSaid (gone_by gone) kept g (with_unread_down l []) }
{}

/// A link is connected. The downstream machine calls; an exit without a connection takes it, and
/// then the link stands. An exit that has one already stays as it is, and the link doesn't stand.
#[tactic(auto, using(crate::proofs::LinkEvents::calls_again))]
pub fn a_link_is_connected()
    ensures call { (g : Ghost) (l : LinkState) (service : Description) → Pair g l
        → may_connect l.intake.phase ≡ true → l.exit ≡ NotConnected → l.entry ≡ NotConnected
        → Pair g (called_on l service) }
    ensures take { (g : Ghost) (l : LinkState) (service : Description) (rest : List Message)
        → Pair g (record l { up = message.ServiceDescription service ∷ rest; down = [] })
        → l.exit ≡ NotConnected → l.entry ≡ Handshake
        → Pair g (record l {
          exit = Handshake;
          stands = true;
          up = message.ServiceDescription service ∷ rest;
          down = [];
        }) }
    ensures called_contents { (gone : ℕ → Bool) (l : LinkState) (service : Description)
        (kept : List Board) → IsContent (gone_by gone) l kept
        → IsContent (gone_by gone) (called_on l service) kept }
    ensures taken_contents { (gone : ℕ → Bool) (g : Ghost) (l : LinkState) (service : Description)
        (rest : List Message) (kept : List Board)
        → Pair g (record l { up = message.ServiceDescription service ∷ rest; down = [] })
        → l.entry ≡ Handshake → starts_in (up_words rest) ≡ []
        → IsContent (gone_by gone)
        (record l {
          exit = Handshake;
          stands = true;
          up = message.ServiceDescription service ∷ rest;
          down = [];
        }) kept }
    ensures second { (g : Ghost) (l : LinkState) → Pair g l → may_connect l.intake.phase ≡ true
        → l.entry ≡ NotConnected → Pair g (record l { entry = Handshake }) }
{}

/// The downstream machine's connection comes where the exit has taken it first: the exit shakes
/// hands, has heard nothing, and said no word. Then the link stands, with the description on its
/// way.
pub fn a_link_is_taken_first()
    ensures link { (g : Ghost) (l : LinkState) (service : Description) (down : List Message)
        → Pair g l → may_connect l.intake.phase ≡ true → l.exit ≡ Handshake → up_words l.up ≡ []
        → l.entry ≡ NotConnected → down_words down ≡ []
        → Pair g (record l {
          entry = Handshake;
          stands = true;
          up = message.ServiceDescription service ∷ [];
          down = down;
        }) }
    ensures contents { (gone : ℕ → Bool) (g : Ghost) (l : LinkState) (service : Description)
        (down : List Message) (kept : List Board) → Pair g l → l.entry ≡ NotConnected
        → down_words down ≡ []
        → IsContent (gone_by gone)
        (record l {
          entry = Handshake;
          stands = true;
          up = message.ServiceDescription service ∷ [];
          down = down;
        }) kept }
{}

/// One end alone takes a connection, and the link doesn't stand: the exit one that has not come
/// to the entry or was left there, so that a description at most was said on it; the entry one
/// that the exit has refused or left, or that waits there, on which no word was said.
pub fn a_lone_end_is_taken()
    ensures exit { (g : Ghost) (l : LinkState) (up : List Message) → Pair g l
        → l.exit ≡ NotConnected → IsCall (up_words up)
        → Pair g (record l { exit = Handshake; up = up }) }
    ensures exit_contents { (gone : ℕ → Bool) (l : LinkState) (up : List Message)
        (kept : List Board) → IsCall (up_words up) → IsContent (gone_by gone) l kept
        → IsContent (gone_by gone) (record l { exit = Handshake; up = up }) kept }
    ensures entry { (g : Ghost) (l : LinkState) (down : List Message) → Pair g l
        → may_connect l.intake.phase ≡ true → l.entry ≡ NotConnected → down_words down ≡ []
        → Pair g (record l { entry = Handshake; down = down }) }
    ensures entry_contents { (gone : ℕ → Bool) (l : LinkState) (down : List Message)
        (kept : List Board) → down_words down ≡ [] → IsContent (gone_by gone) l kept
        → IsContent (gone_by gone) (record l { down = down }) kept }
{}

/// A machine may read its events in its own time: an intake that becomes free by an event has read
/// all that its sensor saw, and at the gap of a free intake whose session stands no board moves.
/// So nothing is unread there, and the entry announces as if all were read.
pub fn a_free_intake_has_read()
    ensures read { (g : Ghost) (l : LinkState) (e : Event) (rest : List Sight) (row : InRow)
        → Pair g (with_unread_down l (entry_sees e ∷ rest))
        → intake_row l.intake (in_input.Sensed e) ≡ Some row → row.after.phase ≡ inn.Idle
        → (l.intake.phase ≡ inn.Idle) ⊎ (events_at Entry rest ≡ []) }
    ensures rests { (step : Move) (l : LinkState) (g : Ghost) (c : Around) → Pair g l
        → l.entry ≡ Standing → l.intake.phase ≡ inn.Idle → around_move step l.around ≡ Ok c → ⊥ }
    ensures announces { (gone : ℕ → Bool) (kept : List Board) (g : Ghost) (l : LinkState)
        (w : Announced) (later : List Sight) → events_at Entry later ≡ []
        → EntryStep (gone_by gone) kept g (with_unread_down l []) w [] l.down
        → EntryStep (gone_by gone) kept g (with_unread_down l later) w later l.down }
{}

/// A link is cut: what flows either way is gone.
#[tactic(auto, using(crate::proofs::LinkEvents::is_cut))]
pub fn a_link_is_cut()
    ensures link { (g : Ghost) (l : LinkState) → Pair g l → Pair g (cut_on l) }
    ensures contents { (gone : ℕ → Bool) (l : LinkState) (kept : List Board)
        → IsContent (gone_by gone) l kept → IsContent (gone_by gone) (cut_on l) kept }
{}

/// What is no word changes nothing: a sign of life, a notification, a query and its answer, heard
/// or said.
pub fn what_is_no_word_changes_nothing()
    ensures heard_upstream { (g : Ghost) (l : LinkState) (m : Message) (rest : List Message)
        → up_words (m ∷ rest) ≡ up_words rest → Pair g (record l { up = m ∷ rest })
        → Pair g (record l { up = rest }) }
    ensures heard_downstream { (g : Ghost) (l : LinkState) (m : Message) (rest : List Message)
        → down_words (m ∷ rest) ≡ down_words rest → Pair g (record l { down = m ∷ rest })
        → Pair g (record l { down = rest }) }
    ensures said_upstream { (g : Ghost) (l : LinkState) (ms : List Message) → down_words ms ≡ []
        → Pair g l → Pair g (record l { down = sent ms l.stands l.down }) }
    ensures said_downstream { (g : Ghost) (l : LinkState) (ms : List Message) → up_words ms ≡ []
        → Pair g l → Pair g (record l { up = sent ms l.stands l.up }) }
{}

/// Each move on the floor that is done, at the gap of a link: the link's relation and that of both
/// machines go on. The other sides of the two machines may be any.
#[tactic(auto, using(crate::proofs::MovesKeep::moves_keep))]
pub fn a_board_is_moved()
    ensures { (step : Move) (l : LinkState) (g : Ghost) (kept : List Board) (j : In) (q : Place)
        (kept2 : List Board) (o2 : Out) (p2 : Place) (c : Around)
        → around_move step l.around ≡ Ok c → Pair g l
        → Body l.outlet.phase g.place kept j q l.around.up.boards
        → Body o2 p2 kept2 l.intake.phase g.place l.around.down.boards
        → Lifted step l g kept j q kept2 o2 p2 c }
{}

/// Boards are put in, taken out, replaced and marked by hand, none of them held by a half: the
/// machine's boards stay in order, and what is offered is still of the touched front, or gone. The
/// ids that are gone stay gone.
#[tactic(auto, using(crate::proofs::Hands::body_inserted, crate::proofs::HandsFloor::removes_board, crate::proofs::HandsFloor::replaces_board, crate::proofs::Hands::body_marked))]
pub fn boards_change_by_hand()
    ensures inserted { (o : Out) (p : Place) (kept : List Board) (q : Place) (boards : List OnFloor) (r : Board)
        → Body o p kept inn.Idle q boards
        → Body o p (kept ++ (r ∷ [])) inn.Idle q (boards ++ (board_of r ∷ [])) }
    ensures removed { (q : Board) (o : Out) (p : Place) (ks js : List Board) (i : In) (at : Place)
        (boards : List OnFloor) → TakenOut q ks js → IsOther q (held_out o)
        → Body o p ks i at boards → Body o p js i at (without_board q.id boards) }
    ensures replaced { (q n : Board) (o : Out) (p : Place) (ks js : List Board) (i : In)
        (at : Place) (boards : List OnFloor) → PutFor q n ks js → IsOther q (held_out o)
        → Body o p ks i at boards → Body o p js i at (with_new_id q.id n.id boards) }
    ensures marked { (q n : Board) (o : Out) (p : Place) (ks js : List Board) (i : In) (at : Place)
        (boards : List OnFloor) → n.id ≡ q.id → PutFor q n ks js → Body o p ks i at boards
        → Body o p js i at boards }
{}

/// And what is offered on the link below goes on, also where a board of the link above settles, and
/// where a board that wasn't offered last is given away: its id isn't gone then.
pub fn offers_outlive_changes_by_hand()
    ensures inserted { (gone gone2 : ℕ → Bool) (l : LinkState) (kept : List Board) (n : Board)
        → ((x : ℕ) → gone x ≡ true → gone2 x ≡ true) → IsContent (gone_by gone) l kept
        → IsContent (gone_by gone2) l (kept ++ (n ∷ [])) }
    ensures removed { (gone gone2 : ℕ → Bool) (l : LinkState) (q : Board) (ks js : List Board)
        → ((x : ℕ) → gone x ≡ true → gone2 x ≡ true) → gone2 q.id ≡ true → TakenOut q ks js
        → IsContent (gone_by gone) l ks → IsContent (gone_by gone2) l js }
    ensures replaced { (gone gone2 : ℕ → Bool) (l : LinkState) (q n : Board) (ks js : List Board)
        → ((x : ℕ) → gone x ≡ true → gone2 x ≡ true) → gone2 q.id ≡ true → PutFor q n ks js
        → IsContent (gone_by gone) l ks → IsContent (gone_by gone2) l js }
    ensures taken { (gone gone2 : ℕ → Bool) (l : LinkState) (c : Around) (kept : List Board)
        → ((x : ℕ) → gone x ≡ true → gone2 x ≡ true) → IsContent (gone_by gone) l kept
        → IsContent (gone_by gone2) (record l { around = c }) kept }
    ensures settled { (gone : ℕ → Bool) (l : LinkState) (q : Option Board) (kept : List Board)
        → IsContent (gone_by gone) l kept → IsContent (gone_by gone) l (keep_at q kept) }
    ensures marked { (gone : ℕ → Bool) (l : LinkState) (q n : Board) (ks js : List Board)
        → n.id ≡ q.id → (l.outlet.touched ≡ Some q.id → ⊥) → PutFor q n ks js
        → IsContent (gone_by gone) l ks → IsContent (gone_by gone) l js }
    ensures given { (gone : ℕ → Bool) (l : LinkState) (q : Board) (ks js : List Board)
        → (l.last_offer ≡ Some q.id → ⊥) → TakenOut q ks js → IsContent (gone_by gone) l ks
        → IsContent (gone_by gone) l js }
{}
