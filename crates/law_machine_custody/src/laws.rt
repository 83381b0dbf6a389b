//! What a machine's step keeps. Each law is a contract over the relation of a machine and its two
//! links.

ghost use Rattle.std.specs.Prelude.{◌≡◌, ◌∷◌, ◌++◌, [], Bool, List, Option, Some, false, true, ℕ};
ghost use Rattle.line_base.specs.declared.states.Side.{Side};
ghost use Rattle.line_base.specs.declared.states.Side.TheVariants.{Entry, Exit};
ghost use Rattle.line_base.specs.declared.states.Quality.{Quality};
ghost use Rattle.board_record.specs.declared.record.Record.{Record};
ghost use Rattle.board_record.specs.declared.sensed.Sensed.{Sensed};
ghost use Rattle.board_record.specs.declared.sub_board.SubBoard.{SubBoard};
ghost use Rattle.hermes_horizontal.specs.declared.message.Horizontal.{Horizontal};
ghost use Rattle.hermes_horizontal.specs.declared.message.Horizontal.TheVariants as message;
ghost use Rattle.hermes_horizontal.specs.declared.message.Service.{Service};
ghost use Rattle.session_core.specs.declared.state.SessionState.TheVariants.{Handshake, NotConnected};
ghost use Rattle.line_world.specs.FloorPlan.{with_new_id, without_board};
ghost use Rattle.handover_in.specs.State.{may_connect};
ghost use Rattle.handover_in.specs.declared.phase.Phase.TheVariants as inn;
ghost use Rattle.node_core.specs.Boards.{is_kept, with_kept, without};
ghost use Rattle.node_core.specs.Desk.{Desk};
ghost use Rattle.node_core.specs.Event.{Accepted, Connect, Event, Gets, Gives, Insert, Mark, Nothing, Remove, Replace, Second, Sub};
ghost use Rattle.node_core.specs.Halves.{OffersFront};
ghost use Rattle.node_core.specs.Step.{machine_step};
ghost use Rattle.node_core.specs.declared.act.Act.{Act};
ghost use Rattle.node_core.specs.declared.lane.Body.{Body as Machine};
ghost use Rattle.law_custody.specs.Pair.{Ghost};
ghost use Rattle.law_custody.specs.Talks.{IsCall};
ghost use Rattle.law_custody.specs.Words.{down_words, up_words};
ghost use Rattle.law_machine_custody.specs.Ahead.{GoesAhead, GoesTo, IsFreeRead};
ghost use Rattle.law_machine_custody.specs.ByHand.{AreHere, Grows, IsNotLast, body_read};
ghost use Rattle.law_machine_custody.specs.Flight.{IsPlain};
ghost use Rattle.law_machine_custody.specs.Good.{Afar, Goes, GoesBy, Good};
ghost use Rattle.law_machine_custody.specs.InTime.{IsMetInTime, IsReadEnough};
ghost use Rattle.law_machine_custody.specs.Joined.{GoesLeft, GoesSecond, all_met_left, all_met_second, described_by, with_link};
ghost use Rattle.law_machine_custody.specs.Scene.{Scene, all_met};
ghost use Rattle.law_machine_custody.specs.Unique.{IsApart};

/// A step in which no board is changed by hand and no connection is made keeps the relation of
/// both links and of the machine: it reads its sensor events, hears the oldest messages to a side
/// or a wrong one, notices a close, ticks, shuts down, meets a fault of a drive, another will or a
/// level of its segment, tells or asks of boards, talks to its supervisor, and makes its
/// announcements.
pub fn a_step_keeps_both_links()
    ensures { (afar : Afar) (above : List Record) (ga gb : Ghost) (desk : Desk)
        (unread : List Sensed) (event : Event) (body : Machine) (c : Scene) → IsPlain event c
        → OffersFront body → Good afar above unread ga gb body c
        → GoesBy afar above [] ga gb c (machine_step desk unread event body) }
{}

/// And so does a step in which a board is put in, taken out, replaced or marked by hand, or gets a
/// circuit of a panel: a new board whose id is none on the floor, or one that is kept still when the events are read. The
/// ids of boards that go are gone from then on. And so does one in which a board goes to another lane
/// of the machine, which was not offered last before the step, and one in which a board comes from
/// there whose id isn't gone by this machine: of them nothing is gone.
pub fn a_change_by_hand_keeps_both_links()
    ensures insert { (afar : Afar) (above : List Record) (ga gb : Ghost) (gone : ℕ → Bool)
        (desk : Desk) (unread : List Sensed) (id : ℕ) (barcode : Option (List ℕ)) (body : Machine)
        (c : Scene) → Good afar above unread ga gb body c → body.intake.phase ≡ inn.Idle
        → Grows afar.gone_below gone → AreHere gone (c.boards ++ record { id = Some id } ∷ [])
        → GoesBy (record afar { gone_below = gone }) above [] ga gb c
        (machine_step desk unread (Insert id barcode) body) }
    ensures remove { (afar : Afar) (above : List Record) (ga gb : Ghost) (gone : ℕ → Bool)
        (desk : Desk) (unread : List Sensed) (id : ℕ) (body : Machine) (c : Scene)
        → Good afar above unread ga gb body c → IsApart afar c
        → is_kept id (body_read desk unread body).kept ≡ true → Grows afar.gone_below gone
        → gone id ≡ true → AreHere gone (without_board id c.boards)
        → GoesBy (record afar { gone_below = gone }) above [] ga gb c
        (machine_step desk unread (Remove id) body) }
    ensures replace { (afar : Afar) (above : List Record) (ga gb : Ghost) (gone : ℕ → Bool)
        (desk : Desk) (unread : List Sensed) (old new : ℕ) (body : Machine) (c : Scene)
        → Good afar above unread ga gb body c → IsApart afar c
        → is_kept old (body_read desk unread body).kept ≡ true → Grows afar.gone_below gone
        → gone old ≡ true → AreHere gone (with_new_id old new c.boards)
        → GoesBy (record afar { gone_below = gone }) above [] ga gb c
        (machine_step desk unread (Replace old new) body) }
    ensures mark { (afar : Afar) (above : List Record) (ga gb : Ghost) (desk : Desk)
        (unread : List Sensed) (id : ℕ) (quality : Quality) (body : Machine) (c : Scene)
        → Good afar above unread ga gb body c → (body.outlet.touched ≡ Some id → ⊥)
        → GoesBy afar above [] ga gb c (machine_step desk unread (Mark id quality) body) }
    ensures sub { (afar : Afar) (above : List Record) (ga gb : Ghost) (desk : Desk)
        (unread : List Sensed) (id : ℕ) (sub : SubBoard) (body : Machine) (c : Scene)
        → Good afar above unread ga gb body c → (body.outlet.touched ≡ Some id → ⊥)
        → GoesBy afar above [] ga gb c (machine_step desk unread (Sub id sub) body) }
    ensures gives { (afar : Afar) (above : List Record) (ga gb : Ghost) (desk : Desk)
        (unread : List Sensed) (id to : ℕ) (body : Machine) (c : Scene)
        → Good afar above unread ga gb body c → IsNotLast id body
        → GoesBy afar above [] ga gb c (machine_step desk unread (Gives id to) body) }
    ensures gets { (afar : Afar) (above : List Record) (ga gb : Ghost) (desk : Desk)
        (unread : List Sensed) (board : Record) (body : Machine) (c : Scene)
        → Good afar above unread ga gb body c → body.intake.phase ≡ inn.Idle
        → AreHere afar.gone_below (c.boards ++ record { id = Some board.id } ∷ [])
        → GoesBy afar above [] ga gb c (machine_step desk unread (Gets board) body) }
{}

/// A board that changes lanes inside a machine: one that is kept and wasn't offered last goes out of
/// the kept ones and off the floor, and nothing is gone; and one comes behind the kept ones as it is,
/// beside an idle intake, if it isn't gone by this machine.
pub fn a_board_that_changes_lanes_keeps_both_links()
    ensures given { (afar : Afar) (above : List Record) (unread : List Sensed) (ga gb : Ghost)
        (id : ℕ) (body : Machine) (c : Scene) → Good afar above unread ga gb body c
        → is_kept id body.kept ≡ true → (body.last_offer ≡ Some id → ⊥)
        → AreHere afar.gone_below (without_board id c.boards)
        → Good afar above unread ga gb (with_kept (without id body.kept) body)
        (record c { boards = without_board id c.boards }) }
    ensures got { (afar : Afar) (above : List Record) (unread : List Sensed) (ga gb : Ghost)
        (board : Record) (body : Machine) (c : Scene) → Good afar above unread ga gb body c
        → body.intake.phase ≡ inn.Idle
        → AreHere afar.gone_below (c.boards ++ record { id = Some board.id } ∷ [])
        → Good afar above unread ga gb (with_kept (body.kept ++ board ∷ []) body)
        (record c { boards = c.boards ++ record { id = Some board.id } ∷ [] }) }
{}

/// The two steps in which a link is connected. The machine below calls: in the relation the link
/// doesn't stand until the exit above takes the connection, and the real scene differs in that the
/// link stands and the description is on its way. Then the machine above takes it, and from there
/// on relation and real scene are one.
pub fn a_first_connection_keeps_both_links()
    ensures call { (afar : Afar) (above : List Record) (ga gb : Ghost) (desk : Desk)
        (unread : List Sensed) (body : Machine) (c : Scene) → Good afar above unread ga gb body c
        → body.entry.session.state ≡ NotConnected → may_connect body.intake.phase ≡ true
        → GoesBy afar above [] ga gb (with_link Entry false [] [] c)
        (machine_step desk unread Connect body) }
    ensures real { (afar : Afar) (above : List Record) (ga gb : Ghost) (desk : Desk)
        (unread : List Sensed) (body : Machine) (c : Scene) → Good afar above unread ga gb body c
        → body.entry.session.state ≡ NotConnected → may_connect body.intake.phase ≡ true
        → all_met (machine_step desk unread Connect body).acts (with_link Entry true [] [] c)
        ≡ with_link Entry true (message.ServiceDescription (described_by desk) ∷ []) []
        (all_met (machine_step desk unread Connect body).acts (with_link Entry false [] [] c)) }
    ensures take { (afar : Afar) (above : List Record) (ga gb : Ghost) (desk : Desk)
        (unread : List Sensed) (body : Machine) (c : Scene) (service : Service)
        → Good afar above unread ga gb body c → body.exit.session.state ≡ NotConnected
        → c.below.entry ≡ Handshake
        → Goes afar above [] ga gb c (machine_step desk unread Accepted body).body
        (all_met (machine_step desk unread Accepted body).acts
        (with_link Exit true (message.ServiceDescription service ∷ []) [] c)) }
{}

/// A second connection: the machine below calls on a link that doesn't stand, and the machine
/// above answers the new connection, while the first one goes on.
pub fn a_second_connection_keeps_both_links()
    ensures call { (afar : Afar) (above : List Record) (ga gb : Ghost) (desk : Desk)
        (unread : List Sensed) (body : Machine) (c : Scene) → Good afar above unread ga gb body c
        → body.entry.session.state ≡ NotConnected → may_connect body.intake.phase ≡ true
        → c.above.stands ≡ false
        → GoesBy afar above [] ga gb c (machine_step desk unread Connect body) }
    ensures answer { (afar : Afar) (above : List Record) (ga gb : Ghost) (desk : Desk)
        (unread : List Sensed) (body : Machine) (c : Scene) → Good afar above unread ga gb body c
        → GoesSecond afar above [] ga gb c (machine_step desk unread Second body) }
{}

/// A machine may read a front of its sensor events in a step of its own, and leave the rest: as
/// long as its intake has none unread while it is free in a session that stands. That stays so.
pub fn a_step_reads_a_front()
    ensures links { (afar : Afar) (above : List Record) (ga gb : Ghost) (desk : Desk)
        (read rest : List Sensed) (body : Machine) (c : Scene)
        → Good afar above (read ++ rest) ga gb body c → IsFreeRead (read ++ rest) body
        → GoesBy afar above rest ga gb c (machine_step desk read Nothing body) }
    ensures free { (afar : Afar) (above : List Record) (ga gb : Ghost) (desk : Desk)
        (read rest : List Sensed) (body : Machine) (c : Scene)
        → Good afar above (read ++ rest) ga gb body c → IsFreeRead (read ++ rest) body
        → IsFreeRead rest (machine_step desk read Nothing body).body }
{}

/// It may leave events unread whatever befalls it, once it has read what its boards did at either gap
/// (`IsReadEnough`), and hears each word in time (`IsMetInTime`): as its connection is found closed,
/// a drive fails, its clock ticks, it shuts down, its will or a level changes, or it hears words.
pub fn a_step_comes_before_all_is_read()
    ensures links { (afar : Afar) (above : List Record) (ga gb : Ghost) (desk : Desk)
        (read rest : List Sensed) (event : Event) (body : Machine) (c : Scene) → IsPlain event c
        → IsMetInTime event rest → OffersFront body → Good afar above (read ++ rest) ga gb body c
        → IsFreeRead (read ++ rest) body → IsReadEnough rest ga
        → GoesBy afar above rest ga gb c (machine_step desk read event body) }
    ensures free { (afar : Afar) (above : List Record) (ga gb : Ghost) (desk : Desk)
        (read rest : List Sensed) (event : Event) (body : Machine) (c : Scene) → IsPlain event c
        → IsMetInTime event rest → OffersFront body → Good afar above (read ++ rest) ga gb body c
        → IsFreeRead (read ++ rest) body → IsReadEnough rest ga
        → IsFreeRead rest (machine_step desk read event body).body }
{}

/// And so it may as a board is changed by hand, whatever its sensors have seen and it has not read.
pub fn a_change_by_hand_comes_before_all_is_read()
    ensures insert { (afar : Afar) (above : List Record) (ga gb : Ghost) (gone : ℕ → Bool)
        (desk : Desk) (read rest : List Sensed) (id : ℕ) (barcode : Option (List ℕ))
        (body : Machine) (c : Scene) → Good afar above (read ++ rest) ga gb body c
        → IsFreeRead (read ++ rest) body → body.intake.phase ≡ inn.Idle
        → Grows afar.gone_below gone → AreHere gone (c.boards ++ record { id = Some id } ∷ [])
        → GoesAhead (record afar { gone_below = gone }) above rest ga gb c
        (machine_step desk read (Insert id barcode) body) }
    ensures remove { (afar : Afar) (above : List Record) (ga gb : Ghost) (gone : ℕ → Bool)
        (desk : Desk) (read rest : List Sensed) (id : ℕ) (body : Machine) (c : Scene)
        → Good afar above (read ++ rest) ga gb body c → IsFreeRead (read ++ rest) body
        → IsApart afar c → is_kept id (body_read desk read body).kept ≡ true
        → Grows afar.gone_below gone → gone id ≡ true → AreHere gone (without_board id c.boards)
        → GoesAhead (record afar { gone_below = gone }) above rest ga gb c
        (machine_step desk read (Remove id) body) }
    ensures replace { (afar : Afar) (above : List Record) (ga gb : Ghost) (gone : ℕ → Bool)
        (desk : Desk) (read rest : List Sensed) (old new : ℕ) (body : Machine) (c : Scene)
        → Good afar above (read ++ rest) ga gb body c → IsFreeRead (read ++ rest) body
        → IsApart afar c → is_kept old (body_read desk read body).kept ≡ true
        → Grows afar.gone_below gone → gone old ≡ true
        → AreHere gone (with_new_id old new c.boards)
        → GoesAhead (record afar { gone_below = gone }) above rest ga gb c
        (machine_step desk read (Replace old new) body) }
    ensures mark { (afar : Afar) (above : List Record) (ga gb : Ghost) (desk : Desk)
        (read rest : List Sensed) (id : ℕ) (quality : Quality) (body : Machine) (c : Scene)
        → Good afar above (read ++ rest) ga gb body c → IsFreeRead (read ++ rest) body
        → (body.outlet.touched ≡ Some id → ⊥)
        → GoesAhead afar above rest ga gb c (machine_step desk read (Mark id quality) body) }
    ensures sub { (afar : Afar) (above : List Record) (ga gb : Ghost) (desk : Desk)
        (read rest : List Sensed) (id : ℕ) (sub : SubBoard) (body : Machine) (c : Scene)
        → Good afar above (read ++ rest) ga gb body c → IsFreeRead (read ++ rest) body
        → (body.outlet.touched ≡ Some id → ⊥)
        → GoesAhead afar above rest ga gb c (machine_step desk read (Sub id sub) body) }
{}

/// And as a connection is made: one that the machine above took first, one that has no other end, at
/// either machine, or that is refused, whether the machine below has it still or has left it.
pub fn a_connection_comes_before_all_is_read()
    ensures first { (afar : Afar) (above : List Record) (ga gb : Ghost) (desk : Desk)
        (read rest : List Sensed) (body : Machine) (c : Scene) (down : List Horizontal)
        → Good afar above (read ++ rest) ga gb body c → IsFreeRead (read ++ rest) body
        → body.entry.session.state ≡ NotConnected → may_connect body.intake.phase ≡ true
        → c.above.exit ≡ Handshake → up_words c.above.up ≡ [] → down_words down ≡ []
        → GoesTo afar above rest ga gb c (machine_step desk read Connect body).body
        (all_met (machine_step desk read Connect body).acts (with_link Entry true [] down c)) }
    ensures above { (afar : Afar) (above : List Record) (ga gb : Ghost) (desk : Desk)
        (read rest : List Sensed) (body : Machine) (c : Scene) (up : List Horizontal)
        → Good afar above (read ++ rest) ga gb body c → IsFreeRead (read ++ rest) body
        → body.exit.session.state ≡ NotConnected → IsCall (up_words up)
        → GoesTo afar above rest ga gb c (machine_step desk read Accepted body).body
        (all_met (machine_step desk read Accepted body).acts
        (with_link Exit c.below.stands up c.below.down c)) }
    ensures below { (afar : Afar) (above : List Record) (ga gb : Ghost) (desk : Desk)
        (read rest : List Sensed) (body : Machine) (c : Scene) (down : List Horizontal)
        → Good afar above (read ++ rest) ga gb body c → IsFreeRead (read ++ rest) body
        → body.entry.session.state ≡ NotConnected → may_connect body.intake.phase ≡ true
        → down_words down ≡ []
        → GoesAhead afar above rest ga gb (with_link Entry c.above.stands c.above.up down c)
        (machine_step desk read Connect body) }
    ensures refused { (afar : Afar) (above : List Record) (ga gb : Ghost) (desk : Desk)
        (read rest : List Sensed) (body : Machine) (c : Scene)
        → Good afar above (read ++ rest) ga gb body c → IsFreeRead (read ++ rest) body
        → GoesTo afar above rest ga gb c (machine_step desk read Second body).body
        (all_met_second (machine_step desk read Second body).acts c) }
    ensures left { (afar : Afar) (above : List Record) (ga gb : Ghost) (desk : Desk)
        (read rest : List Sensed) (body : Machine) (c : Scene)
        → Good afar above (read ++ rest) ga gb body c → IsFreeRead (read ++ rest) body
        → GoesTo afar above rest ga gb c (machine_step desk read Second body).body
        (all_met_left (machine_step desk read Second body).acts c) }
{}

/// The machine below finds its connection made where the machine above has taken it first: the
/// exit above shakes hands, has heard nothing, and said no word. From then on the link stands.
pub fn a_link_taken_first_keeps_both_links()
    ensures { (afar : Afar) (above : List Record) (ga gb : Ghost) (desk : Desk)
        (unread : List Sensed) (body : Machine) (c : Scene) (down : List Horizontal)
        → Good afar above unread ga gb body c → body.entry.session.state ≡ NotConnected
        → may_connect body.intake.phase ≡ true → c.above.exit ≡ Handshake
        → up_words c.above.up ≡ [] → down_words down ≡ []
        → Goes afar above [] ga gb c (machine_step desk unread Connect body).body
        (all_met (machine_step desk unread Connect body).acts (with_link Entry true [] down c)) }
{}

/// One end alone takes a connection, and the link doesn't stand. The machine above takes one that
/// has not come to the machine below, or was left there; the machine below finds one made that the
/// machine above has refused or left, or has not taken.
pub fn a_lone_end_keeps_both_links()
    ensures above { (afar : Afar) (above : List Record) (ga gb : Ghost) (desk : Desk)
        (unread : List Sensed) (body : Machine) (c : Scene) (up : List Horizontal)
        → Good afar above unread ga gb body c → body.exit.session.state ≡ NotConnected
        → IsCall (up_words up)
        → Goes afar above [] ga gb c (machine_step desk unread Accepted body).body
        (all_met (machine_step desk unread Accepted body).acts
        (with_link Exit c.below.stands up c.below.down c)) }
    ensures below { (afar : Afar) (above : List Record) (ga gb : Ghost) (desk : Desk)
        (unread : List Sensed) (body : Machine) (c : Scene) (down : List Horizontal)
        → Good afar above unread ga gb body c → body.entry.session.state ≡ NotConnected
        → may_connect body.intake.phase ≡ true → down_words down ≡ []
        → GoesBy afar above [] ga gb (with_link Entry c.above.stands c.above.up down c)
        (machine_step desk unread Connect body) }
{}

/// A second connection that the machine below has left: the answer is for nobody, and the first
/// one goes on.
pub fn a_left_connection_keeps_both_links()
    ensures { (afar : Afar) (above : List Record) (ga gb : Ghost) (desk : Desk)
        (unread : List Sensed) (body : Machine) (c : Scene) → Good afar above unread ga gb body c
        → GoesLeft afar above [] ga gb c (machine_step desk unread Second body) }
{}

/// A cut of a link, in the midst of a step too, keeps the relation: it is the same before and
/// behind the acts.
pub fn a_cut_keeps_both_links()
    ensures kept { (afar : Afar) (above : List Record) (unread : List Sensed) (ga gb : Ghost)
        (body : Machine) (c : Scene) (side : Side) → Good afar above unread ga gb body c
        → Good afar above unread ga gb body (with_link side false [] [] c) }
    ensures commutes { (side : Side) (acts : List Act) (c : Scene)
        → all_met acts (with_link side false [] [] c)
        ≡ with_link side false [] [] (all_met acts c) }
{}
