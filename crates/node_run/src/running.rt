ghost use Rattle.std.specs.Prelude.{◌≡◌, ◌≤◌, ◌<◌, ◌^◌, [], None, IfSome, IfOk, length};
ghost use Rattle.node_run.specs.Runs.{IsRunStatus, RunEnds};
ghost use Rattle.node_run.specs.Told.{RunEndsTold, HasRunCauses, neighbours_of, rules_of, profile_of};
ghost use Rattle.node_run.specs.State.{started};
ghost use Rattle.node_run.specs.Moving.{IsEndCaused, IsRunEnd, IsOnceStatus, DoesOnce};
ghost use Rattle.node_core.specs.Node.{new_node};

use crate::moves::make_move;
use crate::place::Next;
use crate::rules::Rules;
use crate::run::{Run, channels};
use crate::status::NodeStatus;
use line_base::Memory;
use line_outside::{Clock, Ports, Pushed, Sink, push_all};
use node_core::{Node, NodeProfile};
use node_settings::Settings;
use std::alloc::Global;

/// How many bytes a poll takes at most.
pub const ROOM_BYTES: usize = 4096;

/// Runs a machine with these settings until its panel says `end`, its turns are used, or something
/// outside fails.
pub fn run_node<P: Ports, C: Clock, K: Sink>(
    alloc: Global,
    settings: Settings,
    ports: &mut P,
    clock: &mut C,
    log: &mut K,
) -> NodeStatus
    requires least { 1 ≤ settings.places.capacity }
    requires most { settings.places.capacity ≤ 1024 }
    requires used { settings.places.used < 2 ^ 48 }
    // the calls, the log and the end are those of the run, each of its moves at a moment of the clock
    ensures runs { RunEndsTold (C.moment clock.old) settings (P.given ports.old)
        (P.given ports.new) (K.contents log.old) (K.contents log.new) result }
    ensures fits { IsRunStatus result }
    ensures causes { HasRunCauses result (P.faults ports.old) (P.faults ports.new)
        (K.faults log.old) (K.faults log.new) }
{
    let mut room = match vec![in alloc; 0u8; ROOM_BYTES] {
        Ok(room) => room,
        Err(_) => return NodeStatus::Memory,
    };
    let mut run = match new_run(alloc, settings) {
        Ok(run) => run,
        Err(_) => return NodeStatus::Memory,
    };
    let status = run_on(&mut run, room.as_mut_slice(), ports, clock, log);
    drop(run);
    status
}

/// Makes the moves of a run one after the other, until it ends.
fn run_on<P: Ports, C: Clock, K: Sink>(
    run: &mut Run,
    room: &mut [u8],
    ports: &mut P,
    clock: &mut C,
    log: &mut K,
) -> NodeStatus
    requires room { length room.old ≡ 4096 }
    requires rest { length run.old.state.rest ≤ 4096 }
    requires ended { run.old.state.ended ≡ None }
    ensures runs { RunEnds (C.moment clock.old) run.old.rules run.old.state (P.given ports.old)
        (P.given ports.new) (K.contents log.old) (K.contents log.new) result }
    ensures fits { IsRunStatus result }
    ensures causes { HasRunCauses result (P.faults ports.old) (P.faults ports.new)
        (K.faults log.old) (K.faults log.new) }
{
    loop {
        if let Some(status) = move_once(run, room, ports, clock, log) {
            return status;
        }
        run.is_short();
    }
}

/// A run with these settings, before its first turn. It takes the memory of two cutters.
fn new_run(alloc: Global, settings: Settings) -> Result<Run, Memory>
    requires least { 1 ≤ settings.places.capacity }
    requires most { settings.places.capacity ≤ 1024 }
    requires used { settings.places.used < 2 ^ 48 }
    ensures { IfOk result
        (λ run. run
        ≡ record {
          rules = rules_of settings;
          state = started (neighbours_of settings) (new_node (profile_of settings));
          told = [];
        }) }
{
    let Settings {
        identity,
        places,
        bridge,
        connections,
        turns,
        panel,
    } = settings;
    let neighbours = config_service::Settings {
        upstream: connections.upstream,
        port: connections.downstream_port,
    };
    let rules = Rules {
        number: identity.number,
        machine_id: identity.machine_id.copy(alloc)?,
        connections,
        turns,
        panel,
    };
    let profile = NodeProfile {
        number: identity.number,
        lane: identity.lane,
        machine: identity.machine_id,
        capacity: places.capacity,
        used: places.used,
        bridge,
    };
    let node = Node::new(alloc, profile)?;
    let (channel, config) = match channels(alloc) {
        Ok(both) => both,
        Err(Memory) => {
            drop(node);
            return Err(Memory);
        }
    };
    Ok(Run::new(alloc, rules, neighbours, node, channel, config))
}

/// Makes the next move, and writes its lines to the log. Answers how the run ends, if it does.
fn move_once<P: Ports, C: Clock, K: Sink>(
    run: &mut Run,
    room: &mut [u8],
    ports: &mut P,
    clock: &mut C,
    log: &mut K,
) -> Option<NodeStatus>
    requires room { length room.old ≡ 4096 }
    requires rest { length run.old.state.rest ≤ 4096 }
    requires ended { IsRunEnd run.old.state.ended }
    ensures rules { result ≡ None → run.new.rules ≡ run.old.rules }
    ensures clock { C.moment clock.new ≡ C.moment clock.old }
    ensures does { DoesOnce result (C.moment clock.old) run.old.rules run.old.state run.new.state
        (P.given ports.old) (P.given ports.new) (K.contents log.old) (K.contents log.new) }
    ensures rest { result ≡ None → length run.new.state.rest ≤ 4096 }
    ensures ended { result ≡ None
        → IsEndCaused run.new.state.ended (P.faults ports.old) (P.faults ports.new) }
    ensures ports { P.faults ports.old ≤ P.faults ports.new }
    ensures log { K.faults log.old ≤ K.faults log.new }
    ensures status { IfSome result
        (λ status. IsOnceStatus run.old.state.ended status (K.faults log.old) (K.faults log.new)) }
{
    run.begin_move();
    let next = run.next();
    if let Next::End(status) = next {
        return Some(status);
    }
    match make_move(run, next, room, ports, clock) {
        Ok(()) => match push_all(log, run.told()) {
            Pushed::Whole => None,
            Pushed::Failed => Some(NodeStatus::LogFault),
        },
        Err(Memory) => Some(NodeStatus::Memory),
    }
}
