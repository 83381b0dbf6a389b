//! What holds of a link whatever it meets. Each law is a contract over the relation of the link.

ghost use Rattle.std.specs.Prelude.{◌≡◌, ◌∷◌, [], Bool, List, Option, Some, None, false, is_some, not, ℕ};
ghost use Rattle.line_base.specs.declared.states.Side.TheVariants.{Exit};
ghost use Rattle.line_base.specs.declared.states.SensorEvent.{SensorEvent as Event};
ghost use Rattle.line_base.specs.declared.states.SensorEvent.TheVariants as event;
ghost use Rattle.line_base.specs.declared.states.Transfer.{Transfer as End};
ghost use Rattle.board_record.specs.declared.record.Record.{Record};
ghost use Rattle.board_record.specs.declared.sensed.Sensed.{Sensed as Sight};
ghost use Rattle.hermes_horizontal.specs.declared.message.Horizontal.{Horizontal as Message};
ghost use Rattle.hermes_horizontal.specs.declared.message.Horizontal.TheVariants as message;
ghost use Rattle.hermes_horizontal.specs.declared.message.Service.{Service as Description};
ghost use Rattle.line_world.specs.declared.board.Board.{Board};
ghost use Rattle.line_world.specs.declared.gap.Gap.TheVariants.{Begun, Left};
ghost use Rattle.line_world.specs.Moves.{entry_sees};
ghost use Rattle.handover_out.specs.State.{board_of_phase as held_out, would_open};
ghost use Rattle.handover_out.specs.declared.phase.Phase.TheVariants as out;
ghost use Rattle.handover_in.specs.Row.{InRow, intake_row};
ghost use Rattle.handover_in.specs.State.{board_of_phase as held_in};
ghost use Rattle.handover_in.specs.declared.input.InInput.TheVariants as in_input;
ghost use Rattle.law_custody.specs.Words.{TransportFinished, UpstreamService, down_words, events_at};
ghost use Rattle.law_custody.specs.Place.{Fresh, InGap, Across, Inside};
ghost use Rattle.law_custody.specs.CutAfterInside.{ghost_at, link_across, link_answered, link_begun, link_connected, link_cut_off, link_inside, link_noticed_downstream, link_noticed_upstream, link_opened, link_settled};
ghost use Rattle.law_custody.specs.Facts.{Has, HasDown, TellsOf};
ghost use Rattle.law_custody.specs.Pair.{Ghost, LinkState, Pair};
ghost use Rattle.law_custody.specs.LookBack.{IsSaid, LetGo, Recalls, Since, since_after};
ghost use Rattle.law_custody.specs.Contents.{Looks, OffersFront, front_if};
ghost use Rattle.law_custody.specs.Events.{IsAsked, IsContent, gone_by, hearing_down, hearing_up, with_unread_down};
ghost use Rattle.law_custody.specs.Floors.{new_link, nobody};

/// The board that lies begun in the gap is the outlet's.
pub fn a_board_in_the_gap_is_held_upstream()
    ensures { (g : Ghost) (l : LinkState) (a : Board) → Pair g l → l.around.between.lies ≡ Begun a
        → (held_out l.outlet.phase ≡ Some g.board) × (a.id ≡ Some g.board.id) }
{}

/// The board that lies wholly across the gap is the intake's.
pub fn a_board_across_the_gap_is_held_downstream()
    ensures { (g : Ghost) (l : LinkState) (a : Board) → Pair g l → l.around.between.lies ≡ Left a
        → (held_in l.intake.phase ≡ Some g.board) × (a.id ≡ Some g.board.id) }
{}

/// An outlet that still holds a board which is gone from its machine has that unread: that it has
/// left, or that it was taken out by hand. A board that lies across the gap has left.
#[tactic(auto, using(crate::proofs::Promised::board_gone, crate::proofs::Promised::board_left))]
pub fn a_board_that_is_gone_is_unread_at_the_exit()
    ensures across { (g : Ghost) (l : LinkState) (q : Record) (a : Board) → Pair g l
        → held_out l.outlet.phase ≡ Some q → l.around.between.lies ≡ Left a
        → Has event.Left (events_at Exit l.around.up.unread) }
    ensures gone { (g : Ghost) (l : LinkState) (q : Record) (e : Event) → Pair g l
        → held_out l.outlet.phase ≡ Some q → TellsOf g.place e
        → Has e (events_at Exit l.around.up.unread) }
{}

/// While the end of a transfer, or the upstream machine's description of itself, is in flight to
/// an intake that can still hear it, the outlet holds nothing.
#[tactic(auto, using(crate::proofs::Promised::free_behind_an_end, crate::proofs::Promised::free_behind_a_description))]
pub fn an_outlet_is_free_behind_an_end()
    ensures end { (g : Ghost) (l : LinkState) (e : End) (z : ℕ) → Pair g l
        → HasDown (TransportFinished e z) (down_words l.down) → held_out l.outlet.phase ≡ None }
    ensures description { (g : Ghost) (l : LinkState) → Pair g l
        → HasDown UpstreamService (down_words l.down) → held_out l.outlet.phase ≡ None }
{}

/// Where both halves hold a board, they hold one record.
#[tactic(auto, using(crate::proofs::Promised::one_record))]
pub fn both_halves_hold_one_record()
    ensures { (g : Ghost) (l : LinkState) (q r : Record) → Pair g l
        → held_out l.outlet.phase ≡ Some q → held_in l.intake.phase ≡ Some r → q ≡ r }
{}

/// What settles is what left: the record that an intake hands to its machine is the one that the
/// outlet above let go last.
#[tactic(auto, using(crate::proofs::Promised::read_was_let_go, crate::proofs::Promised::end_was_let_go))]
pub fn a_settled_board_was_let_go()
    ensures read { (g : Ghost) (l : LinkState) (e : Event) (rest : List Sight) (row : InRow)
        (q : Record) (last : Option Record) → Pair g (with_unread_down l (entry_sees e ∷ rest))
        → intake_row l.intake (in_input.Sensed e) ≡ Some row → row.act.keep ≡ Some q
        → LetGo g.place l.outlet.phase g.board last → last ≡ Some q }
    ensures end { (g : Ghost) (l : LinkState) (s : End) (z : ℕ) (rest : List Message) (row : InRow)
        (q : Record) (last : Option Record)
        → Pair g (hearing_down l (message.TransportFinished s z) rest)
        → intake_row l.intake (in_input.Finished s z) ≡ Some row → row.act.keep ≡ Some q
        → LetGo g.place l.outlet.phase g.board last → last ≡ Some q }
    ensures description { (g : Ghost) (l : LinkState) (service : Description) (rest : List Message)
        (row : InRow) (q : Record) (last : Option Record)
        → Pair g (hearing_down l (message.ServiceDescription service) rest)
        → intake_row l.intake in_input.Stand ≡ Some row → row.act.keep ≡ Some q
        → LetGo g.place l.outlet.phase g.board last → last ≡ Some q }
{}

/// A board settles only after the upstream machine said that it has left, in the connection of its
/// handover, or described itself in a later one.
#[tactic(auto, using(crate::proofs::Promised::read_was_said, crate::proofs::Promised::end_was_said))]
pub fn a_board_settles_only_when_it_is_said()
    ensures read { (g : Ghost) (l : LinkState) (e : Event) (rest : List Sight) (row : InRow)
        (q : Record) (s : Since) → Pair g (with_unread_down l (entry_sees e ∷ rest))
        → intake_row l.intake (in_input.Sensed e) ≡ Some row → row.act.keep ≡ Some q
        → Recalls l.intake.phase s → IsSaid (since_after (in_input.Sensed e) s) }
    ensures end { (g : Ghost) (l : LinkState) (t : End) (z : ℕ) (rest : List Message) (row : InRow)
        (q : Record) (s : Since) → Pair g (hearing_down l (message.TransportFinished t z) rest)
        → intake_row l.intake (in_input.Finished t z) ≡ Some row → row.act.keep ≡ Some q
        → Recalls l.intake.phase s → IsSaid (since_after (in_input.Finished t z) s) }
    ensures description { (g : Ghost) (l : LinkState) (service : Description) (rest : List Message)
        (row : InRow) (q : Record) (s : Since)
        → Pair g (hearing_down l (message.ServiceDescription service) rest)
        → intake_row l.intake in_input.Stand ≡ Some row → row.act.keep ≡ Some q
        → Recalls l.intake.phase s → IsSaid (since_after in_input.Stand s) }
{}

/// The relation stands in each state of the run 'cut after the board is in': the connection is cut
/// as the board has come inside and before either machine has read so, and the board settles once
/// a new connection stands.
pub fn a_cut_after_the_board_is_in()
    ensures opened { (a : Record) → Pair (ghost_at Fresh a) (link_opened a) }
    ensures begun { (a : Record) → Pair (ghost_at InGap a) (link_begun a) }
    ensures across { (a : Record) → Pair (ghost_at Across a) (link_across a) }
    ensures inside { (a : Record) → Pair (ghost_at Inside a) (link_inside a) }
    ensures cut { (a : Record) → Pair (ghost_at Inside a) (link_cut_off a) }
    ensures noticed_downstream { (a : Record)
        → Pair (ghost_at Inside a) (link_noticed_downstream a) }
    ensures noticed_upstream { (a : Record) → Pair (ghost_at Inside a) (link_noticed_upstream a) }
    ensures connected { (a : Record) (service : Description)
        → Pair (ghost_at Inside a) (link_connected a service) }
    ensures answered { (a : Record) (service : Description)
        → Pair (ghost_at Inside a) (link_answered a service) }
    ensures settled { (a : Record) → Pair (ghost_at Inside a) (link_settled a) }
{}

/// A start that is heard is the last that the downstream machine said, and nothing answered it
/// yet; its board is held there, unless it was dropped since.
pub fn a_start_that_is_heard_is_the_last()
    ensures { (l : LinkState) (z : ℕ) (rest : List Message) (last : Option ℕ) (dropped : Bool)
        → IsAsked (hearing_up l (message.StartTransport z) rest) last dropped → (last ≡ Some z)
        × (is_some (held_in l.intake.phase) ≡ not dropped) }
{}

/// A machine that looks for the front of its boards where a start would open its outlet finds the
/// board that is offered.
#[tactic(auto, using(crate::proofs::Promised::finds_for_a_start))]
pub fn a_start_finds_what_is_offered()
    ensures { (g : Ghost) (l : LinkState) (z : ℕ) (rest : List Message) (kept : List Record)
        → Pair g (hearing_up l (message.StartTransport z) rest) → OffersFront l.outlet.offered kept
        → Looks l.outlet.offered kept z (front_if (would_open l.outlet z) kept) }
{}

/// The relation stands on a new link, between machines that have nothing; nothing is offered, was
/// let go or is asked.
#[tactic(auto, using(crate::proofs::LinkEvents::new_pair, crate::proofs::Promised::new_lets, crate::proofs::Promised::new_asked))]
pub fn a_new_link_stands()
    ensures link { Pair (record { place = Fresh; board = nobody }) new_link }
    ensures contents { (gone : ℕ → Bool) → IsContent (gone_by gone) new_link [] }
    ensures lets { LetGo Fresh out.Idle nobody None }
    ensures asked { IsAsked new_link None false }
{}
