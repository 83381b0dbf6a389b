//! The moves of a run: one call of the ports with what its answer does, a line of the panel, a
//! message of the supervisor or of the configuration service, the reset of a side, or what was found
//! of a neighbour.

ghost use Rattle.std.specs.Prelude.{◌≡◌, ◌≤◌, [], false, ℤ, OnOk, OnErr, Option, length};
ghost use Rattle.line_outside.specs.Given.{got_bytes};
ghost use Rattle.line_outside.specs.Ports.{IsGotWithin};
ghost use Rattle.node_run.specs.After.{found_of};
ghost use Rattle.node_run.specs.Next.{next_of};
ghost use Rattle.node_run.specs.Runs.{IsMoment};
ghost use Rattle.node_run.specs.Moving.{MovesAs, MissesMove, is_end};
ghost use Rattle.node_run.specs.declared.place.Next.TheVariants as nexts;

use crate::place::Next;
use crate::run::Run;
use config_service::Settings;
use line_base::{Memory, Moment, Side};
use line_outside::{Address, Clock, Got, Ports, Way};

/// Makes the move that comes next.
///
/// `Memory` where it ran out: the run goes no further then, and at most the move's call was made.
pub fn make_move<P: Ports, C: Clock>(
    run: &mut Run,
    next: Next,
    room: &mut [u8],
    ports: &mut P,
    clock: &mut C,
) -> Result<(), Memory>
    requires next { next_of run.old.rules run.old.state ≡ next }
    requires goes_on { is_end next ≡ false }
    requires told { run.old.told ≡ [] }
    requires room { length room.old ≡ 4096 }
    requires rest { length run.old.state.rest ≤ 4096 }
    ensures clock { C.moment clock.new ≡ C.moment clock.old }
    ensures counted { P.faults ports.old ≤ P.faults ports.new }
    ensures moves { OnOk result
        (MovesAs (C.moment clock.old) run.old run.new (P.given ports.old) (P.given ports.new)
        (P.faults ports.old) (P.faults ports.new)) }
    ensures misses { OnErr result
        (MissesMove run.old.rules run.old.state (P.given ports.old) (P.given ports.new)) }
{
    match next {
        Next::End(_) => unreachable!(),
        Next::Skip => {
            pass_place(run, ports);
            Ok(())
        }
        Next::Line => take_line(run, ports, clock),
        Next::Hear => take_message(run, ports, clock),
        Next::HearConfig => take_config(run, ports, clock),
        Next::Try(settings) => try_port(run, settings, ports, clock),
        Next::Reset(side) => reset_side(run, side, ports, clock),
        Next::Look => look(run, room, ports),
        Next::Take => take_held(run, ports, clock),
        Next::Listen(way, address) => {
            listen(run, way, address, ports);
            Ok(())
        }
        Next::Connect(address) => {
            connect(run, address, ports);
            Ok(())
        }
        Next::Poll(way) => poll(run, way, room, ports, clock),
        Next::Send(way) => {
            send(run, way, ports);
            Ok(())
        }
        Next::Refuse(way) => {
            refuse(run, way, ports);
            Ok(())
        }
        Next::Close(way) => close(run, way, ports, clock),
    }
}

/// Goes on from a place where nothing is to do. The ports aren't called.
fn pass_place<P: Ports>(run: &mut Run, ports: &mut P)
    requires next { next_of run.old.rules run.old.state ≡ nexts.Skip }
    requires told { run.old.told ≡ [] }
    requires rest { length run.old.state.rest ≤ 4096 }
    ensures counted { P.faults ports.old ≤ P.faults ports.new }
    ensures moves { (told : Option ℤ)
        → MovesAs told run.old run.new (P.given ports.old) (P.given ports.new) (P.faults ports.old)
        (P.faults ports.new) }
{
    run.skip();
}

/// Does the next of the panel's lines. The ports aren't called.
fn take_line<P: Ports, C: Clock>(run: &mut Run, ports: &mut P, clock: &mut C) -> Result<(), Memory>
    requires next { next_of run.old.rules run.old.state ≡ nexts.Line }
    requires told { run.old.told ≡ [] }
    requires rest { length run.old.state.rest ≤ 4096 }
    ensures clock { C.moment clock.new ≡ C.moment clock.old }
    ensures counted { P.faults ports.old ≤ P.faults ports.new }
    ensures moves { OnOk result
        (MovesAs (C.moment clock.old) run.old run.new (P.given ports.old) (P.given ports.new)
        (P.faults ports.old) (P.faults ports.new)) }
    ensures misses { OnErr result
        (MissesMove run.old.rules run.old.state (P.given ports.old) (P.given ports.new)) }
{
    let moment = moment_of(clock);
    run.take_line(moment)
}

/// Does the next of the supervisor's messages. The ports aren't called.
fn take_message<P: Ports, C: Clock>(
    run: &mut Run,
    ports: &mut P,
    clock: &mut C,
) -> Result<(), Memory>
    requires next { next_of run.old.rules run.old.state ≡ nexts.Hear }
    requires told { run.old.told ≡ [] }
    requires rest { length run.old.state.rest ≤ 4096 }
    ensures clock { C.moment clock.new ≡ C.moment clock.old }
    ensures counted { P.faults ports.old ≤ P.faults ports.new }
    ensures moves { OnOk result
        (MovesAs (C.moment clock.old) run.old run.new (P.given ports.old) (P.given ports.new)
        (P.faults ports.old) (P.faults ports.new)) }
    ensures misses { OnErr result
        (MissesMove run.old.rules run.old.state (P.given ports.old) (P.given ports.new)) }
{
    let moment = moment_of(clock);
    run.take_message(moment)
}

/// Does the next of the configuration service's messages. The ports aren't called.
fn take_config<P: Ports, C: Clock>(
    run: &mut Run,
    ports: &mut P,
    clock: &mut C,
) -> Result<(), Memory>
    requires next { next_of run.old.rules run.old.state ≡ nexts.HearConfig }
    requires told { run.old.told ≡ [] }
    requires rest { length run.old.state.rest ≤ 4096 }
    ensures clock { C.moment clock.new ≡ C.moment clock.old }
    ensures counted { P.faults ports.old ≤ P.faults ports.new }
    ensures moves { OnOk result
        (MovesAs (C.moment clock.old) run.old run.new (P.given ports.old) (P.given ports.new)
        (P.faults ports.old) (P.faults ports.new)) }
    ensures misses { OnErr result
        (MissesMove run.old.rules run.old.state (P.given ports.old) (P.given ports.new)) }
{
    let moment = moment_of(clock);
    run.take_config(moment)
}

/// Listens at the port of a Set. Where that fails, the run goes on.
fn try_port<P: Ports, C: Clock>(
    run: &mut Run,
    settings: Settings,
    ports: &mut P,
    clock: &mut C,
) -> Result<(), Memory>
    requires next { next_of run.old.rules run.old.state ≡ nexts.Try settings }
    requires told { run.old.told ≡ [] }
    requires rest { length run.old.state.rest ≤ 4096 }
    ensures clock { C.moment clock.new ≡ C.moment clock.old }
    ensures counted { P.faults ports.old ≤ P.faults ports.new }
    ensures moves { OnOk result
        (MovesAs (C.moment clock.old) run.old run.new (P.given ports.old) (P.given ports.new)
        (P.faults ports.old) (P.faults ports.new)) }
    ensures misses { OnErr result
        (MissesMove run.old.rules run.old.state (P.given ports.old) (P.given ports.new)) }
{
    let opened = ports.listen(Way::Downstream, Address::at_all(settings.port));
    let moment = moment_of(clock);
    run.after_try(settings, opened, moment)
}

/// Resets a side whose setting changed. The ports aren't called.
fn reset_side<P: Ports, C: Clock>(
    run: &mut Run,
    side: Side,
    ports: &mut P,
    clock: &mut C,
) -> Result<(), Memory>
    requires next { next_of run.old.rules run.old.state ≡ nexts.Reset side }
    requires told { run.old.told ≡ [] }
    requires rest { length run.old.state.rest ≤ 4096 }
    ensures clock { C.moment clock.new ≡ C.moment clock.old }
    ensures counted { P.faults ports.old ≤ P.faults ports.new }
    ensures moves { OnOk result
        (MovesAs (C.moment clock.old) run.old run.new (P.given ports.old) (P.given ports.new)
        (P.faults ports.old) (P.faults ports.new)) }
    ensures misses { OnErr result
        (MissesMove run.old.rules run.old.state (P.given ports.old) (P.given ports.new)) }
{
    let moment = moment_of(clock);
    run.reset(side, moment)
}

fn listen<P: Ports>(run: &mut Run, way: Way, address: Address, ports: &mut P)
    requires next { next_of run.old.rules run.old.state ≡ nexts.Listen way address }
    requires told { run.old.told ≡ [] }
    requires rest { length run.old.state.rest ≤ 4096 }
    ensures counted { P.faults ports.old ≤ P.faults ports.new }
    ensures moves { (told : Option ℤ)
        → MovesAs told run.old run.new (P.given ports.old) (P.given ports.new) (P.faults ports.old)
        (P.faults ports.new) }
{
    let opened = ports.listen(way, address);
    run.after_listen(address, opened);
}

fn connect<P: Ports>(run: &mut Run, address: Address, ports: &mut P)
    requires next { next_of run.old.rules run.old.state ≡ nexts.Connect address }
    requires told { run.old.told ≡ [] }
    requires rest { length run.old.state.rest ≤ 4096 }
    ensures counted { P.faults ports.old ≤ P.faults ports.new }
    ensures moves { (told : Option ℤ)
        → MovesAs told run.old run.new (P.given ports.old) (P.given ports.new) (P.faults ports.old)
        (P.faults ports.new) }
{
    ports.connect(Way::Upstream, address);
    run.after_connect();
}

fn poll<P: Ports, C: Clock>(
    run: &mut Run,
    way: Way,
    room: &mut [u8],
    ports: &mut P,
    clock: &mut C,
) -> Result<(), Memory>
    requires next { next_of run.old.rules run.old.state ≡ nexts.Poll way }
    requires told { run.old.told ≡ [] }
    requires room { length room.old ≡ 4096 }
    requires rest { length run.old.state.rest ≤ 4096 }
    ensures clock { C.moment clock.new ≡ C.moment clock.old }
    ensures counted { P.faults ports.old ≤ P.faults ports.new }
    ensures moves { OnOk result
        (MovesAs (C.moment clock.old) run.old run.new (P.given ports.old) (P.given ports.new)
        (P.faults ports.old) (P.faults ports.new)) }
    ensures misses { OnErr result
        (MissesMove run.old.rules run.old.state (P.given ports.old) (P.given ports.new)) }
{
    let got = ports.poll(way, room);
    let moment = moment_of(clock);
    run.after_poll(way, got, given(got, room), moment)
}

/// Polls the panel before what was found of a neighbour is taken.
fn look<P: Ports>(run: &mut Run, room: &mut [u8], ports: &mut P) -> Result<(), Memory>
    requires next { next_of run.old.rules run.old.state ≡ nexts.Look }
    requires told { run.old.told ≡ [] }
    requires room { length room.old ≡ 4096 }
    requires rest { length run.old.state.rest ≤ 4096 }
    ensures counted { P.faults ports.old ≤ P.faults ports.new }
    ensures moves { (told : Option ℤ) → OnOk result
        (MovesAs told run.old run.new (P.given ports.old) (P.given ports.new) (P.faults ports.old)
        (P.faults ports.new)) }
    ensures misses { OnErr result
        (MissesMove run.old.rules run.old.state (P.given ports.old) (P.given ports.new)) }
{
    let got = ports.poll(Way::Panel, room);
    run.after_look(got, given(got, room))
}

/// Takes what was found of a neighbour. The ports aren't called.
fn take_held<P: Ports, C: Clock>(run: &mut Run, ports: &mut P, clock: &mut C) -> Result<(), Memory>
    requires next { next_of run.old.rules run.old.state ≡ nexts.Take }
    requires told { run.old.told ≡ [] }
    requires rest { length run.old.state.rest ≤ 4096 }
    ensures clock { C.moment clock.new ≡ C.moment clock.old }
    ensures counted { P.faults ports.old ≤ P.faults ports.new }
    ensures moves { OnOk result
        (MovesAs (C.moment clock.old) run.old run.new (P.given ports.old) (P.given ports.new)
        (P.faults ports.old) (P.faults ports.new)) }
    ensures misses { OnErr result
        (MissesMove run.old.rules run.old.state (P.given ports.old) (P.given ports.new)) }
{
    let moment = moment_of(clock);
    run.take_held(moment)
}

fn send<P: Ports>(run: &mut Run, way: Way, ports: &mut P)
    requires next { next_of run.old.rules run.old.state ≡ nexts.Send way }
    requires told { run.old.told ≡ [] }
    requires rest { length run.old.state.rest ≤ 4096 }
    ensures counted { P.faults ports.old ≤ P.faults ports.new }
    ensures moves { (told : Option ℤ)
        → MovesAs told run.old run.new (P.given ports.old) (P.given ports.new) (P.faults ports.old)
        (P.faults ports.new) }
{
    let sent = ports.send(way, run.unsent(way));
    run.after_send(way, sent);
}

fn refuse<P: Ports>(run: &mut Run, way: Way, ports: &mut P)
    requires next { next_of run.old.rules run.old.state ≡ nexts.Refuse way }
    requires told { run.old.told ≡ [] }
    requires rest { length run.old.state.rest ≤ 4096 }
    ensures counted { P.faults ports.old ≤ P.faults ports.new }
    ensures moves { (told : Option ℤ)
        → MovesAs told run.old run.new (P.given ports.old) (P.given ports.new) (P.faults ports.old)
        (P.faults ports.new) }
{
    ports.refuse(way, run.refusal_text());
    run.after_refuse();
}

fn close<P: Ports, C: Clock>(
    run: &mut Run,
    way: Way,
    ports: &mut P,
    clock: &mut C,
) -> Result<(), Memory>
    requires next { next_of run.old.rules run.old.state ≡ nexts.Close way }
    requires told { run.old.told ≡ [] }
    requires rest { length run.old.state.rest ≤ 4096 }
    ensures clock { C.moment clock.new ≡ C.moment clock.old }
    ensures counted { P.faults ports.old ≤ P.faults ports.new }
    ensures moves { OnOk result
        (MovesAs (C.moment clock.old) run.old run.new (P.given ports.old) (P.given ports.new)
        (P.faults ports.old) (P.faults ports.new)) }
    ensures misses { OnErr result
        (MissesMove run.old.rules run.old.state (P.given ports.old) (P.given ports.new)) }
{
    ports.close(way);
    let moment = moment_of(clock);
    run.after_close(way, moment)
}

/// What the clock says. Every clock stays within the years of a moment.
pub fn moment_of<C: Clock>(clock: &mut C) -> Moment
    ensures clock { C.moment clock.new ≡ C.moment clock.old }
    ensures told { IsMoment (C.moment clock.old) result }
{
    let moment = clock.now();
    let _millis = moment.millis();
    moment
}

/// The bytes that a poll gave.
fn given(got: Got, room: &[u8]) -> &[u8]
    requires { IsGotWithin (length room.now) got }
    ensures found { got_bytes got room.now ≡ found_of got result.now }
    ensures within { length result.now ≤ length room.now }
{
    match got {
        Got::Bytes(count) => &room[..count],
        Got::Arrived | Got::Second | Got::NotYet | Got::Closed | Got::Failed => &[],
    }
}
