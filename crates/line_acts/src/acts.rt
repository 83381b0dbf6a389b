//! What the acts of a machine do to the links and to the floor, and which of them the report
//! tells.

ghost use Rattle.std.specs.Prelude.{◌≡◌, ◌∷◌, ◌++◌, IfOk, OnErr, OnOk, length};
ghost use Rattle.line_world.specs.FloorPlan.{IsMachine};
ghost use Rattle.node_core.specs.declared.act.Act.TheVariants as acts;
ghost use Rattle.line_report.specs.declared.happening.Happening.TheVariants as happenings;
ghost use Rattle.line_step.specs.Acts.{act_did, acts_did, answers, counted, cut_told, is_answer, is_exit, sent_by};
ghost use Rattle.line_acts.specs.Broken.{AreBrokenOff, IsBrokenOff, IsTold};
ghost use Rattle.line_acts.specs.Doing.{is_drive, maybe_cut, told_with};

use crate::links::link_of;
use crate::world::World;
use hermes_horizontal::{Horizontal, Message};
use line_base::{Memory, Side};
use line_link::Sent;
use line_report::{Happened, Happening};
use node_core::{Act, Deed, Outputs};

/// Where acts are told: which machine did them, and whether in the step of a second connection.
#[derive(Clone, Copy)]
pub struct Teller {
    pub machine: u32,
    pub second: bool,
}

/// Does the acts of a step, in their order, and tells them. `Memory` where there is no room in one
/// of them: those before it are done and told then, none behind it is, and of that one either
/// nothing is, or it is done and not all that it tells is told.
pub fn do_acts(
    teller: &Teller,
    acts: Outputs,
    world: &mut World,
    told: &mut Happened,
) -> Result<(), Memory>
    requires { IsMachine world.old.floor teller.now.machine }
    ensures world { OnOk result
        (world.new ≡ (acts_did teller.now.second teller.now.machine acts world.old).world) }
    ensures told { OnOk result
        (told.new ≡ told.old
        ++ (acts_did teller.now.second teller.now.machine acts world.old).told) }
    ensures machines { OnOk result (length world.new.floor.machines ≡ length world.old.floor.machines) }
    ensures broken { OnErr result
        (AreBrokenOff teller.now.second teller.now.machine acts world.old world.new told.old told.new) }
{
    for act in acts.into_list() {
        do_act(teller, act, world, told)?;
    }
    Ok(())
}

fn do_act(teller: &Teller, act: Act, world: &mut World, told: &mut Happened) -> Result<(), Memory>
    requires { IsMachine world.old.floor teller.now.machine }
    ensures world { OnOk result
        (world.new ≡ (act_did teller.now.second teller.now.machine act world.old).world) }
    ensures told { OnOk result
        (told.new ≡ told.old
        ++ (act_did teller.now.second teller.now.machine act world.old).told) }
    ensures machines { OnOk result (length world.new.floor.machines ≡ length world.old.floor.machines) }
    ensures broken { OnErr result
        (IsBrokenOff teller.now.second teller.now.machine act world.old world.new told.old told.new) }
{
    let cut = change(teller, &act, world)?;
    tell_act(teller.machine, act, cut, told)
}

// ---- what an act does

/// What an act does to the links and the floor. It answers the link that is cut because too much
/// is on its way, which is all that the telling needs beside the act.
fn change(teller: &Teller, act: &Act, world: &mut World) -> Result<Option<u32>, Memory>
    requires { IsMachine world.old.floor teller.now.machine }
    ensures world { IfOk result
        (λ _. world.new ≡ (act_did teller.now.second teller.now.machine act.now world.old).world) }
    ensures told { IfOk result
        (λ cut. (act_did teller.now.second teller.now.machine act.now world.old).told
        ≡ told_with (is_drive act.now) teller.now.machine act.now cut) }
    ensures machines { IfOk result (λ _. length world.new.floor.machines ≡ length world.old.floor.machines) }
    ensures unchanged { OnErr result (world.new ≡ world.old) }
{
    let machine = teller.machine;
    match act {
        Act::Sends(side, message) => send(teller, *side, message, world),
        Act::Closes(side) => {
            world.close(machine, *side);
            Ok(None)
        }
        Act::Notices(side) => {
            world.close(machine, *side);
            Ok(None)
        }
        Act::Drive(side, on) => {
            world.set_drive(machine, *side, *on);
            Ok(None)
        }
        Act::Inserts(id) => {
            world.lay(machine, *id)?;
            Ok(None)
        }
        Act::Removes(id) => {
            world.take_off(machine, *id);
            Ok(None)
        }
        Act::Replaces(old, new) => {
            world.change(machine, *old, *new);
            Ok(None)
        }
        Act::Gives { id, .. } => {
            world.take_off(machine, *id);
            Ok(None)
        }
        Act::Gets { id } => {
            world.lay(machine, *id)?;
            Ok(None)
        }
        Act::Deed(deed) => {
            count(*deed, world)?;
            Ok(None)
        }
        _ => Ok(None),
    }
}

/// A deed is counted where it opens a handover or settles a board.
fn count(deed: Deed, world: &mut World) -> Result<(), Memory>
    ensures world { OnOk result (world.new ≡ counted deed world.old) }
    ensures machines { OnOk result (length world.new.floor.machines ≡ length world.old.floor.machines) }
    ensures unchanged { OnErr result (world.new ≡ world.old) }
{
    match deed {
        Deed::Opens(_) => world.count_opened(),
        Deed::Settles(_) => world.count_settled(),
        _ => Ok(()),
    }
}

/// A machine sends a message: the answer to a second connection flows though the link doesn't
/// stand.
fn send(
    teller: &Teller,
    side: Side,
    message: &Message,
    world: &mut World,
) -> Result<Option<u32>, Memory>
    ensures world { IfOk result
        (λ _. world.new
        ≡ (sent_by (answers teller.now.second side message.now) teller.now.machine side message.now
        world.old).world) }
    ensures told { IfOk result
        (λ cut. (sent_by
        (answers teller.now.second side message.now) teller.now.machine side message.now
        world.old).told
        ≡ happenings.Done teller.now.machine (acts.Sends side message.now) ∷ maybe_cut cut) }
    ensures machines { IfOk result (λ _. length world.new.floor.machines ≡ length world.old.floor.machines) }
    ensures unchanged { OnErr result (world.new ≡ world.old) }
{
    let machine = teller.machine;
    if answers(teller.second, side, message) {
        let sent = world.answer(machine, message)?;
        return Ok(cut_of(machine, sent));
    }
    let sent = world.send(machine, side, message)?;
    Ok(cut_of(link_of(machine, side), sent))
}

/// Whether a message is the answer to a second connection, in the step of one.
fn answers(second: bool, side: Side, message: &Message) -> bool
    ensures { result ≡ answers second side message.now }
{
    second && (is_exit(side) && is_answer(message.body.what()))
}

fn is_exit(side: Side) -> bool
    ensures { result ≡ is_exit side }
{
    matches!(side, Side::Exit)
}

fn is_answer(body: &Horizontal) -> bool
    ensures { result ≡ is_answer body.now }
{
    match body {
        Horizontal::Notification { code, .. } => code.number == 2,
        _ => false,
    }
}

/// The link that a text cuts, where too much is on its way.
fn cut_of(link: u32, sent: Sent) -> Option<u32>
    ensures { maybe_cut result ≡ cut_told link sent }
{
    match sent {
        Sent::Cuts => Some(link),
        Sent::Flows | Sent::Vanishes => None,
    }
}

// ---- what is told of it

/// Tells an act, unless it is a drive, and just behind it the link that it cut.
fn tell_act(machine: u32, act: Act, cut: Option<u32>, told: &mut Happened) -> Result<(), Memory>
    ensures told { OnOk result
        (told.new ≡ told.old ++ told_with (is_drive act) machine act cut) }
    ensures part { OnErr result
        (IsTold told.old (told_with (is_drive act) machine act cut) told.new) }
{
    if is_drive(&act) {
        return Ok(());
    }
    told.tell(Happening::Done { machine, act })?;
    tell_maybe_cut(cut, told)
}

fn is_drive(act: &Act) -> bool
    ensures { result ≡ is_drive act.now }
{
    matches!(act, Act::Drive(_, _))
}

fn tell_maybe_cut(cut: Option<u32>, told: &mut Happened) -> Result<(), Memory>
    ensures told { OnOk result (told.new ≡ told.old ++ maybe_cut cut) }
    ensures unchanged { OnErr result (told.new ≡ told.old) }
{
    match cut {
        Some(gap) => told.tell(Happening::Cut { gap }),
        None => Ok(()),
    }
}

/// Too much on its way cuts the link, which is told just after what caused it. `Memory` where
/// there is no room for it: it isn't told then.
pub fn tell_cut(link: u32, sent: Sent, told: &mut Happened) -> Result<(), Memory>
    ensures told { OnOk result (told.new ≡ told.old ++ cut_told link sent) }
    ensures unchanged { OnErr result (told.new ≡ told.old) }
{
    tell_maybe_cut(cut_of(link, sent), told)
}
