//! What a machine tells its supervisor, and what it asks.

ghost use Rattle.std.specs.Prelude.{◌≡◌, ◌≢◌, [], ◌∷◌, ◌++◌, true, IfOk, OnOk, option_map};
ghost use Rattle.node_core.specs.Supervising.{Ask, arrives, cause_of, departs, is_unwatched, orders_after, saw_taken, seen_with, stays_unwatched, supervised_after, supervision_act, tells_behind, tells_cause, tells_deed, tells_supervisor, watch_after, watch_of, with_tells};

use crate::act::{Act, Deed, Outputs, Setting, ToSupervisor};
use crate::desk::Desk;
use crate::input::Input;
use crate::lane::Body;
use board_record::BoardId;
use handover_in::own_after;
use hermes_vertical::{Passage, Passing, Question, Vertical, VerticalMessage};
use line_base::{Memory, Seen, SensorEvent, Side, Text};
use std::alloc::Global;
use supervisory_core::{AskError, OrderBook};

/// What decides of what the supervisor is told: whether there is one, and what the sensors saw of
/// the board that the intake holds.
#[derive(Clone, Copy)]
pub struct Watch {
    pub supervised: bool,
    pub seen: Option<Seen>,
}

/// What may be the cause of what is told.
#[derive(Clone, Copy)]
pub enum Cause {
    None,
    Inserts(BoardId),
    Removes(BoardId),
    Replaces(BoardId, BoardId),
    Deed(Deed),
}

impl Watch {
    /// That of a step which begins with this body.
    pub(crate) fn of(desk: &Desk, body: &Body) -> Watch
        ensures { result ≡ watch_of desk.now body.now }
    {
        Watch {
            supervised: desk.supervised(),
            seen: body.intake.own(),
        }
    }

    /// The board was taken out by hand.
    fn saw_taken(&self) -> bool
        ensures { result ≡ saw_taken self.now.seen }
    {
        match self.seen {
            Some(seen) => seen == Seen::Taken,
            None => false,
        }
    }

    /// An act is done.
    fn note(&mut self, act: &Act)
        ensures { self.new ≡ watch_after self.old act.now }
    {
        match act {
            Act::Reads(Side::Entry, event) => self.seen = seen_after(self.seen, *event),
            Act::Deed(Deed::Starts(_)) => self.seen = Some(Seen::NotStarted),
            Act::Deed(Deed::Settles(_)) => self.seen = None,
            Act::Deed(Deed::Drops(_)) => self.seen = None,
            Act::Sets(Setting::Supervise(on)) => self.supervised = *on,
            _ => {}
        }
    }
}

/// What the sensors saw of the board that an intake holds, if it holds one, after one event more.
fn seen_after(seen: Option<Seen>, event: SensorEvent) -> Option<Seen>
    ensures { result ≡ option_map (seen_with event) seen }
{
    match seen {
        Some(seen) => Some(own_after(seen, event)),
        None => None,
    }
}

// ---- what is told of a board

fn tell(desk: &Desk, what: Vertical, to: &mut Outputs) -> Result<(), Memory>
    ensures { OnOk result (to.new ≡ to.old ++ tells_supervisor desk.now what ∷ []) }
{
    let message = VerticalMessage {
        stamp: Some(desk.moment()),
        body: what,
    };
    to.push(Act::Tells(ToSupervisor::new(desk.alloc(), message)?))
}

fn passage(desk: &Desk, how: Passing, id: BoardId) -> Result<Passage, Memory>
    ensures { IfOk result
        (λ passage.
        passage ≡ record { machine = desk.now.name; lane = desk.now.lane; how = how; id = id }) }
{
    Ok(Passage {
        machine: desk.name().copy(desk.alloc())?,
        lane: desk.lane(),
        how,
        id,
    })
}

fn arrive(desk: &Desk, how: Passing, id: BoardId, to: &mut Outputs) -> Result<(), Memory>
    ensures { OnOk result (to.new ≡ to.old ++ arrives desk.now how id ∷ []) }
{
    let passage = passage(desk, how, id)?;
    tell(desk, Vertical::BoardArrived(passage), to)
}

fn depart(desk: &Desk, how: Passing, id: BoardId, to: &mut Outputs) -> Result<(), Memory>
    ensures { OnOk result (to.new ≡ to.old ++ departs desk.now how id ∷ []) }
{
    let passage = passage(desk, how, id)?;
    tell(desk, Vertical::BoardDeparted(passage), to)
}

fn tell_deed(desk: &Desk, watch: &Watch, deed: Deed, to: &mut Outputs) -> Result<(), Memory>
    ensures { OnOk result (to.new ≡ to.old ++ tells_deed desk.now watch.now.seen deed) }
{
    match deed {
        Deed::Settles(id) => arrive(desk, Passing::Transferred, id, to),
        Deed::Leaves(id) => depart(desk, Passing::Transferred, id, to),
        Deed::Loses(id) => depart(desk, Passing::ByHand, id, to),
        Deed::Drops(id) if watch.saw_taken() => depart(desk, Passing::ByHand, id, to),
        _ => Ok(()),
    }
}

/// The act that may be the cause of what is told.
fn cause_of(act: &Act) -> Cause
    ensures { result ≡ cause_of act.now }
{
    match act {
        Act::Inserts(id) => Cause::Inserts(*id),
        Act::Removes(id) => Cause::Removes(*id),
        Act::Replaces(old, new) => Cause::Replaces(*old, *new),
        Act::Deed(deed) => Cause::Deed(*deed),
        _ => Cause::None,
    }
}

fn tell_cause(desk: &Desk, watch: &Watch, cause: Cause, to: &mut Outputs) -> Result<(), Memory>
    ensures { OnOk result (to.new ≡ to.old ++ tells_cause desk.now watch.now.seen cause) }
{
    match cause {
        Cause::Inserts(id) => arrive(desk, Passing::ByHand, id, to),
        Cause::Removes(id) => depart(desk, Passing::ByHand, id, to),
        Cause::Replaces(old, new) => {
            depart(desk, Passing::ByHand, old, to)?;
            arrive(desk, Passing::ByHand, new, to)
        }
        Cause::Deed(deed) => tell_deed(desk, watch, deed, to),
        Cause::None => Ok(()),
    }
}

/// An act goes out, and just behind it what the supervisor is told of it.
fn push_told(desk: &Desk, watch: &Watch, act: Act, to: &mut Outputs) -> Result<(), Memory>
    ensures { OnOk result (to.new ≡ to.old ++ act ∷ tells_behind desk.now watch.now act) }
{
    let cause = cause_of(&act);
    to.push(act)?;
    if watch.supervised {
        return tell_cause(desk, watch, cause, to);
    }
    Ok(())
}

fn stays_unwatched(act: &Act) -> bool
    ensures { result ≡ stays_unwatched act.now }
{
    !matches!(act, Act::Sets(Setting::Supervise(_)))
}

/// Whether nothing is to be told behind these acts: the machine isn't supervised, and they don't
/// change that.
fn is_unwatched(desk: &Desk, acts: &[Act]) -> bool
    ensures { result ≡ true → is_unwatched desk.now.supervised acts.now ≡ true }
{
    if desk.supervised() {
        return false;
    }
    for act in acts {
        if !stays_unwatched(act) {
            return false;
        }
    }
    true
}

/// The acts of a step, and just behind each what the supervisor is told of it.
pub(crate) fn with_tells(desk: &Desk, watch: Watch, acts: Outputs) -> Result<Outputs, Memory>
    requires { watch.supervised ≡ desk.now.supervised }
    ensures { IfOk result (λ told. told ≡ with_tells desk.now watch acts) }
{
    if is_unwatched(desk, acts.list()) {
        return Ok(acts);
    }
    let mut watch = watch;
    let mut told = Outputs::new(desk.alloc());
    for act in acts.into_list() {
        let now = watch;
        watch.note(&act);
        push_told(desk, &now, act, &mut told)?;
    }
    Ok(told)
}

// ---- what is asked and answered

/// A question for a work order goes out, with the number behind that of the last one.
pub(crate) fn ask(desk: &Desk, question: Question, to: &mut Outputs) -> Result<(), Memory>
    requires { desk.now.asked ≢ 18446744073709551615 }
    ensures { OnOk result (to.new ≡ to.old ++ supervision_act desk.now (Ask question) ∷ []) }
{
    let query = desk.asked() + 1;
    tell(desk, Vertical::QueryWorkOrderInfo { query, question }, to)
}

/// What is asked and answered is kept.
pub(crate) fn note_orders(
    alloc: Global,
    orders: &mut OrderBook,
    input: &Input<'_>,
) -> Result<(), Memory>
    ensures { OnOk result (orders.new ≡ orders_after input.now orders.old) }
{
    match input {
        Input::Ask(question) => {
            let question = question.copy(alloc)?;
            match orders.ask(question) {
                Err(AskError::Memory) => Err(Memory),
                _ => Ok(()),
            }
        }
        Input::Answer { query, order } => {
            let order = order.copy(alloc)?;
            let _ = orders.answer(*query, order);
            Ok(())
        }
        _ => Ok(()),
    }
}

/// Whether a machine is supervised, as an input leaves it.
pub(crate) fn supervised_after(supervised: bool, input: &Input<'_>) -> bool
    ensures { result ≡ supervised_after input.now supervised }
{
    match input {
        Input::Supervise(on) => *on,
        _ => supervised,
    }
}
