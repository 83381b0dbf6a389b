ghost use Rattle.law_node_runs.specs.One.{EachPartIsAFront, EachRunIsOne};
ghost use Rattle.law_joined_nodes.specs.Laws.{NodesRun, NodesStand};
ghost use Rattle.law_joined_nodes.specs.Poured.{PouredStand, TcpIsEnough};
ghost use Rattle.law_joined_nodes.specs.PouredLog.{PouredLogRight};
ghost use Rattle.node_cli.specs.Answered.{EachInputHasOneAnswer, EachOutsideHasOneAnswer, IsAnswered};
ghost use Rattle.node_commands.specs.Command.{DoesNode, FitsNode, HasCauses, is_one};
ghost use Rattle.node_cli.specs.Logged.{LogTellsOwn, TextIsBounded};
ghost use Rattle.law_node_runs.specs.Connections.{ConnectionsAreInOrder};
ghost use Rattle.law_node_runs.specs.OldBytes.{NothingOldIsSent};
ghost use Rattle.node_run.specs.Settled.{SettingsAreTheLast};
ghost use Rattle.law_running_line.specs.Reading.{Behind};

use line_base::Words;
use line_outside::{Clock, Ports, Sink, Source};
use node_commands::run_named;
use node_run::NodeStatus;
use std::alloc::Global;

/// The program `node`: runs the machine that a settings file describes.
///
/// Its one word names the file, whose bytes are `file`. It listens for its panel and its
/// downstream neighbour at `ports`, and where the file says so for its supervisor and for the
/// configuration service, connects to its upstream neighbour when its panel says so, and writes what
/// it does to `log`.
pub fn node_main<S: Source, P: Ports, C: Clock, K: Sink>(
    alloc: Global,
    words: &Words,
    file: &mut S,
    ports: &mut P,
    clock: &mut C,
    log: &mut K,
) -> NodeStatus
    // over a file, ports and a log that tell: the calls, the log and the status are those of the
    // run, each of its moves at a moment of the clock
    ensures does { DoesNode (is_one words.now) (S.left file.old) (C.moment clock.old)
        (P.given ports.old) (P.given ports.new) (K.contents log.old) (K.contents log.new) result }
    ensures fits { FitsNode (is_one words.now) result }
    ensures causes { HasCauses result (S.faults file.old) (S.faults file.new) (P.faults ports.old)
        (P.faults ports.new) (K.faults log.old) (K.faults log.new) }
    // in one sentence: the answer is the one that the words, the file's bytes, the moments and what
    // the ports answered have, or a fault of file or log whose count rose, or Memory
    ensures complete { IsAnswered (is_one words.now) (S.left file.old) (C.moment clock.old)
        (P.given ports.old) (P.given ports.new) (K.contents log.old) (K.contents log.new)
        (S.faults file.old) (S.faults file.new) (K.faults log.old) (K.faults log.new) result }
    // and these have one at most, with one list of calls and one log
    ensures determined { EachInputHasOneAnswer }
    // whatever the words, the file's bytes, the moments and what the ports would answer next, there
    // is exactly one: a node's run has a move for each answer, and comes to its end
    ensures each { EachOutsideHasOneAnswer }
    // since a run is one, whatever state it goes on from
    ensures one { EachRunIsOne }
    // and what was called and logged at a fault of the log or at Memory is a front of what the whole
    // run would have
    ensures part { EachPartIsAFront }
    // what the machine owns is read off the bytes of the log, over the run of every node
    ensures owns { LogTellsOwn }
    // and a way on which too much text waits is closed
    ensures bounded { TextIsBounded }
    // what is said on a connection is sent in its order, and what is given there heard in its order,
    // move by move; and what waits as it is closed is never sent
    ensures connections { ConnectionsAreInOrder }
    ensures since { NothingOldIsSent }
    // where its neighbours are, the last Set says that was taken, or else the file
    ensures settles { SettingsAreTheLast }
    // and with neighbours that run so too, the machines of the nodes run as running machines do, and
    // each board's record has one standing behind each move of theirs, as long as each board is let
    // go behind the reading, what is heard was said behind what is read, and what is found on a
    // connection was said there
    ensures runs { NodesRun Behind }
    ensures neighbours { NodesStand Behind }
    // the last of these TCP gives, where no side that has a connection is reset: of each, the ports
    // of one end give, in order, a front of what those of the other took; and nothing is against
    // what they log then, merged in the order of their moves
    ensures woven { TcpIsEnough Behind }
    ensures over_tcp { PouredStand Behind }
    ensures logs { PouredLogRight Behind }
{
    node_run::laws::what_a_machine_owns_is_read_off_its_log();
    node_run::laws::too_much_text_closes_a_way();
    law_node_runs::one_run::a_run_is_one();
    law_node_runs::each_run::each_outside_has_one_run();
    law_node_runs::node_connections::the_bytes_of_a_connection_are_in_order();
    law_node_runs::node_connections::nothing_old_is_sent();
    node_run::laws::the_settings_are_those_of_the_last_set();
    law_joined_nodes::joined_nodes::woven_nodes_run_behind_the_reading();
    law_joined_nodes::joined_ports::what_carries_bytes_in_order_is_enough();
    law_joined_nodes::joined_logs::the_merged_log_over_tcp_is_right();
    run_named(alloc, words, file, ports, clock, log)
}
