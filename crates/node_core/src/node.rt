ghost use Rattle.std.specs.Prelude.{◌≡◌, ◌↔◌, ◌≤◌, ◌<◌, ◌^◌, true, false, Ok, Some, IsErr, OnErr, IfOk, is_some, length};
ghost use Rattle.std.specs.Option.{option_copied};
ghost use Rattle.hermes_stream.specs.Frames.{most_bytes};
ghost use Rattle.forecast_query.specs.Forecasts.{most_forecasts};
ghost use Rattle.supervisory_core.specs.Orders.{answer_to, most_open, unanswered};
ghost use Rattle.node_core.specs.Bridge.{IsWilling};
ghost use Rattle.node_core.specs.Sides.{session_at, is_open};
ghost use Rattle.node_core.specs.Node.{NodeState, desk_of, first_body, new_node};
ghost use Rattle.node_core.specs.May.{may_of, may_do, may_get, may_give, may_on_lane};
ghost use Rattle.node_core.specs.Reads.{all_read};
ghost use Rattle.node_core.specs.Shifts.{board_given, given_by};
ghost use Rattle.node_core.specs.Shared.{shared_of, with_shared};
ghost use Rattle.node_core.specs.declared.input.Input.TheVariants as inputs;
ghost use Rattle.node_core.specs.Places.{used};
ghost use Rattle.node_core.specs.Hermes.{hermes_state};
ghost use Rattle.node_core.specs.Own.{own_of, own_after};
ghost use Rattle.node_core.specs.Step.{Steps};
ghost use Rattle.node_core.specs.Breaking.{IsBrokenOff};
ghost use Rattle.node_core.specs.Bounds.{IsBounded};

use crate::act::Outputs;
use crate::bridge::{after_input, first_bridge, signal};
use crate::desk::Desk;
use crate::forecasts::note_forecasts;
use crate::hermes::HermesState;
use crate::inbox::Inbox;
use crate::input::Input;
use crate::lane::{Body, End, Lane};
use crate::laws::one_meaning;
use crate::passage::{Given, Passage};
use crate::profile::NodeProfile;
use crate::shared::Shared;
use crate::shelf::Shelf;
use crate::supervising::{note_orders, supervised_after};
use board_record::{BoardId, IdMaker, Record, Sensed};
use forecast_query::Forecasts;
use handover_in::Intake;
use handover_out::Outlet;
use hermes_horizontal::Info;
use line_base::{Memory, Moment, Role, Side, Text};
use session_core::Session;
use std::alloc::Global;
use std::marker::Model;
use supervisory_core::OrderBook;

/// One machine of a board line.
///
/// It is seen as what it knows of itself, its id maker, its lane, the levels of a bridge, the
/// forecasts of the machine upstream, whether it is supervised, and the work orders that it asked
/// for. After `Memory` it is spent: what it has done by then is not told, and each later step
/// answers `Memory`.
#[derive(Drop)]
pub struct Node {
    pub(crate) spent: bool,
    pub(crate) desk: Desk,
    pub(crate) maker: IdMaker,
    pub(crate) lane: Lane,
    pub(crate) forecasts: Forecasts,
    pub(crate) orders: OrderBook,
}

impl Model for Node {
    ghost use Rattle.std.specs.Prelude.{◌≡◌, false};
    ghost use Rattle.node_core.specs.Node.{NodeState};
    ghost use Rattle.node_core.specs.Sound.{IsSound};
    ghost use Rattle.node_core.specs.Bridge.{IsWilling};

    ghost Value = { NodeState };

    ghost view = { λ n. record {
      spent = n.spent;
      name = n.desk.name;
      number = n.desk.lane;
      capacity = n.desk.capacity;
      maker = n.maker;
      lane = n.lane;
      bridge =
          n.desk.bridge;
      forecasts = n.forecasts;
      supervised = n.desk.supervised;
      orders =
          n.orders;
    } };

    ghost invariant = { λ n. n.spent ≡ false → IsSound n.desk.capacity n.lane.body
        × IsWilling n.desk.bridge n.lane.body };
}

/// A body that keeps nothing and has no connections. A bridge's isn't willing on either side,
/// another is on both.
fn first_body(alloc: Global, is_bridge: bool) -> Body
    ensures { result ≡ first_body is_bridge }
{
    Body {
        kept: Shelf::new(alloc),
        outlet: Outlet::new(),
        intake: Intake::new(),
        entry: End {
            session: Session::new(Role::Downstream),
            willing: !is_bridge,
        },
        exit: End {
            session: Session::new(Role::Upstream),
            willing: !is_bridge,
        },
        last_offer: None,
    }
}

/// What is held beside the records is within what its types allow. It goes over these, and changes
/// nothing.
fn stand_within(lane: &Lane, forecasts: &Forecasts, orders: &OrderBook)
    ensures entry { length lane.now.entry_bytes ≤ most_bytes }
    ensures exit { length lane.now.exit_bytes ≤ most_bytes }
    ensures forecasts { length forecasts.now ≤ most_forecasts }
    ensures questions { unanswered orders.now ≤ most_open }
{
    let _entry = lane.entry_bytes.waiting();
    let _exit = lane.exit_bytes.waiting();
    let _forecasts = forecasts.list();
    let _questions = orders.unanswered();
}

impl Node {
    /// A machine that keeps nothing, without connections, willing on both sides; or a bridge, with
    /// all levels off and so willing on none. The room for the bytes of a side is taken when that
    /// side first connects.
    pub fn new(alloc: Global, profile: NodeProfile) -> Result<Node, Memory>
        requires least { 1 ≤ profile.capacity }
        requires most { profile.capacity ≤ 1024 }
        requires used { profile.used < 2 ^ 48 }
        ensures { IfOk result (λ node. node ≡ new_node profile) }
    {
        let desk = Desk::new(
            alloc,
            profile.machine,
            profile.lane,
            profile.capacity,
            Moment::of_millis(0),
            first_bridge(profile.bridge),
        );
        Ok(Node {
            spent: false,
            desk,
            maker: IdMaker::new(profile.number, profile.used),
            lane: Lane {
                body: first_body(alloc, profile.bridge),
                entry_bytes: Inbox::new(),
                exit_bytes: Inbox::new(),
            },
            forecasts: Forecasts::new(alloc),
            orders: OrderBook::new(alloc),
        })
    }

    /// Makes a step at a moment: reads the unread sensor events in order, takes the input, and
    /// makes the announcements that are due; then a bridge sets its own signals. It answers its
    /// acts in their order.
    ///
    /// `Memory` where there is none for the acts, for records and texts; the machine is spent
    /// then.
    #[tactic(auto, using(crate::proofs::Lasting::may_alone))]
    pub fn step(
        &mut self,
        sensed: &[Sensed],
        input: Input<'_>,
        moment: Moment,
    ) -> Result<Outputs, Memory>
        requires { may_of self.old input ≡ may_do }
        ensures spent { self.old.spent ≡ true → IsErr result }
        ensures memory { OnErr result (self.new.spent ≡ true) }
        ensures again { IfOk result (λ acts. self.new.spent ≡ false) }
        // what it did is the machine step
        ensures step { IfOk result (Steps self.old sensed.now input.entry moment self.new) }
        // whatever words its bytes begin with, at the first that means no message, or one without a
        // row, it breaks the connection off, and nothing behind it counts
        ensures wrong { IfOk result (IsBrokenOff self.old sensed.now input.entry moment self.new) }
        // what it holds stays within its places and the limits
        ensures bounded { IfOk result (λ acts. IsBounded self.new) }
        // a bridge is willing by the levels of its segment
        ensures willing { IfOk result (λ acts. IsWilling self.new.bridge self.new.lane.body) }
        // what it owns follows from its acts
        ensures own { IfOk result
            (λ acts. own_of self.new.lane.body ≡ own_after (own_of self.old.lane.body) acts) }
    {
        let mut slot = None;
        self.make_step(sensed, input, moment, &mut slot)
    }

    /// Gives a board to another lane of the machine, 1 to 4, in a step as any other: it reads the
    /// unread sensor events, the board's record, the first of its id behind them, goes out of those
    /// that it keeps, and it makes the announcements that are due. What it did and the record are
    /// answered; that lane is to get it.
    ///
    /// `Memory` as in `step`.
    #[tactic(auto, using(crate::proofs::Staying::board_missing))]
    pub fn give(
        &mut self,
        sensed: &[Sensed],
        id: BoardId,
        to: u32,
        moment: Moment,
    ) -> Result<Given, Memory>
        requires { may_give id self.old ≡ may_do }
        ensures spent { self.old.spent ≡ true → IsErr result }
        ensures memory { OnErr result (self.new.spent ≡ true) }
        ensures again { IfOk result (λ given. self.new.spent ≡ false) }
        ensures step { IfOk result
            (λ given. Steps self.old sensed.now (inputs.Gives id to) moment self.new given.acts) }
        // of which it had the record
        ensures board { IfOk result
            (λ given. board_given self.old sensed.now moment id ≡ Some given.board) }
        ensures bounded { IfOk result (λ given. IsBounded self.new) }
        ensures willing { IfOk result (λ given. IsWilling self.new.bridge self.new.lane.body) }
        ensures own { IfOk result
            (λ given. own_of self.new.lane.body
            ≡ own_after (own_of self.old.lane.body) given.acts) }
    {
        let mut slot = None;
        let acts = self.make_step(sensed, Input::Gives { id, to }, moment, &mut slot)?;
        match slot {
            Some(board) => Ok(Given { acts, board }),
            None => unreachable!(),
        }
    }

    /// Gets a board from another lane of the machine, in a step as any other: its record comes
    /// behind those that it keeps, as it is.
    ///
    /// `Memory` as in `step`.
    pub fn get(
        &mut self,
        sensed: &[Sensed],
        board: Passage,
        moment: Moment,
    ) -> Result<Outputs, Memory>
        requires { may_get self.old ≡ may_do }
        ensures spent { self.old.spent ≡ true → IsErr result }
        ensures memory { OnErr result (self.new.spent ≡ true) }
        ensures again { IfOk result (λ acts. self.new.spent ≡ false) }
        ensures step { IfOk result (Steps self.old sensed.now (inputs.Gets board) moment self.new) }
        ensures bounded { IfOk result (λ acts. IsBounded self.new) }
        ensures willing { IfOk result (λ acts. IsWilling self.new.bridge self.new.lane.body) }
        ensures own { IfOk result
            (λ acts. own_of self.new.lane.body ≡ own_after (own_of self.old.lane.body) acts) }
    {
        let mut slot = None;
        self.make_step(sensed, Input::Gets(board), moment, &mut slot)
    }

    /// What its lanes share, as it is on this one. The machine has this number.
    pub fn shared(&self, number: u32) -> Shared
        requires { self.now.maker.machine ≡ number }
        ensures { result ≡ shared_of self.now }
    {
        Shared {
            number,
            used: self.maker.used(),
            supervised: self.desk.supervised(),
        }
    }

    /// Whether another lane of the same machine has the same to share.
    pub fn shares_alike(&self, other: &Node) -> bool
        requires { self.now.maker.machine ≡ other.now.maker.machine }
        ensures { (result ≡ true) ↔ (shared_of self.now ≡ shared_of other.now) }
    {
        self.maker.used() == other.maker.used() && self.desk.supervised() == other.desk.supervised()
    }

    /// Follows another lane of the same machine in what they share.
    pub fn share(&mut self, with: &Shared)
        ensures { self.new ≡ with_shared with.now self.old }
    {
        self.maker = IdMaker::new(with.number, with.used);
        self.desk.set_supervised(with.supervised);
    }

    /// Makes a step. The record of a board that goes to another lane is put into the slot.
    fn make_step(
        &mut self,
        sensed: &[Sensed],
        input: Input<'_>,
        moment: Moment,
        slot: &mut Option<Passage>,
    ) -> Result<Outputs, Memory>
        requires { may_on_lane self.old input ≡ may_do }
        ensures spent { self.old.spent ≡ true → IsErr result }
        ensures memory { OnErr result (self.new.spent ≡ true) }
        ensures again { IfOk result (λ acts. self.new.spent ≡ false) }
        ensures step { IfOk result (Steps self.old sensed.now input.entry moment self.new) }
        ensures wrong { IfOk result (IsBrokenOff self.old sensed.now input.entry moment self.new) }
        ensures bounded { IfOk result (λ acts. IsBounded self.new) }
        ensures willing { IfOk result (λ acts. IsWilling self.new.bridge self.new.lane.body) }
        ensures own { IfOk result
            (λ acts. own_of self.new.lane.body ≡ own_after (own_of self.old.lane.body) acts) }
        ensures board { IfOk result
            (λ acts. slot.new ≡ given_by input.entry
            (all_read (desk_of self.old moment) sensed.now self.old.lane.body).body.kept slot.old) }
    {
        if self.spent {
            return Err(Memory);
        }
        self.spent = true;
        self.desk.set_moment(moment);
        self.desk.set_asked(self.orders.asked());
        let told = after_input(self.desk.bridge(), &input);
        let supervised = supervised_after(self.desk.supervised(), &input);
        note_orders(self.desk.alloc(), &mut self.orders, &input)?;
        let mut acts = self
            .lane
            .step(&self.desk, &mut self.maker, sensed, input, slot)?;
        let bridge = signal(told, &self.lane.body, &mut acts)?;
        self.desk.set_bridge(bridge);
        self.desk.set_supervised(supervised);
        note_forecasts(self.desk.alloc(), acts.list(), &mut self.forecasts)?;
        one_meaning();
        stand_within(&self.lane, &self.forecasts, &self.orders);
        self.spent = false;
        Ok(acts)
    }

    /// Whether it is a bridge: it has a segment.
    pub fn is_bridge(&self) -> bool
        ensures { result ≡ is_some self.now.bridge }
    {
        self.desk.bridge().is_some()
    }

    /// The records that are kept, the front first.
    pub fn kept(&self) -> &[Record]
        ensures kept { result.now ≡ self.now.lane.body.kept }
        // with those of open handovers they need no more places than there are
        ensures bounded { self.now.spent ≡ false → used self.now.lane.body ≤ self.now.capacity }
    {
        self.lane.body.kept.list()
    }

    /// The upstream half of handovers.
    pub fn outlet(&self) -> &Outlet
        ensures { result.now ≡ self.now.lane.body.outlet }
    {
        &self.lane.body.outlet
    }

    /// The board that was offered last. Nothing clears it: `None` exactly where none ever was.
    pub fn last_offer(&self) -> Option<BoardId>
        ensures { result ≡ self.now.lane.body.last_offer }
    {
        self.lane.body.last_offer
    }

    /// The downstream half of handovers.
    pub fn intake(&self) -> &Intake
        ensures { result.now ≡ self.now.lane.body.intake }
    {
        &self.lane.body.intake
    }

    /// The session of a side.
    pub fn session(&self, side: Side) -> &Session
        ensures { result.now ≡ session_at side self.now.lane.body }
    {
        match side {
            Side::Entry => &self.lane.body.entry.session,
            Side::Exit => &self.lane.body.exit.session,
        }
    }

    /// The last forecasts of the upstream neighbour on its connection, the oldest first.
    pub fn forecasts(&self) -> &[Info]
        ensures kept { result.now ≡ self.now.forecasts }
        ensures bounded { length self.now.forecasts ≤ most_forecasts }
    {
        self.forecasts.list()
    }

    /// Whether it is supervised.
    pub fn is_supervised(&self) -> bool
        ensures { result ≡ self.now.supervised }
    {
        self.desk.supervised()
    }

    /// The answer to the question of this number. `None` exactly where that question was not asked
    /// or not answered.
    pub fn kept_answer(&self, query: u64) -> Option<&Text>
        ensures { option_copied result ≡ answer_to self.now.orders query }
    {
        self.orders.kept_answer(query)
    }

    /// How a side stands, in the standard's words.
    pub fn state(&self, side: Side) -> HermesState
        ensures { result ≡ hermes_state side self.now.lane.body }
    {
        self.lane.body.state(side)
    }
}
