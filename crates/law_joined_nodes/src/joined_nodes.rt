//! The laws of joined nodes. Each is a contract over the definitions of specs/.

ghost use Rattle.law_running_line.specs.Reading.{Behind, Reading, Strictly};
ghost use Rattle.law_joined_nodes.specs.Bytes.{FoundWasSaid};
ghost use Rattle.law_joined_nodes.specs.Laws.{AsksWhereItMay, EachMoveDoes, EachNodeRuns, NodesRun, NodesStand};

/// Each move of a node makes one step of its machine, or none: a connection is made, taken or
/// refused where a poll says that one came; all bytes of one poll are heard at once, and no
/// others; every other step is of an input that a line of the panel, a message of the supervisor,
/// a close or a reset gives. What waits on a side's way is what the machine said there and the
/// ports didn't take, and where a side is reset, the text that tells so before it.
pub fn each_move_does()
    ensures { EachMoveDoes }
{}

/// A node asks for a connection only where its machine can take one: between the line of the
/// panel that asks for it and the call nothing comes.
pub fn a_connection_is_asked_for_where_it_can_be_taken()
    ensures { AsksWhereItMay }
{}

/// What a node does in a woven run is a run of that node: its moves, one behind the other.
pub fn each_node_runs()
    ensures { (reading : Reading) → EachNodeRuns reading }
{}

/// THE LAW OVER WOVEN NODES: in whatever order the moves of joined nodes fall, and whatever their
/// ports answer, as long as a connection comes where it is awaited, and what is found on it was
/// said there and not heard, the machines of the nodes run as running machines do, where each
/// board is let go behind the reading, and each message is heard once all is read that its
/// receiver's sensors had seen before it was said. So each board's record has one standing behind
/// each step.
pub fn woven_nodes_run_behind_the_reading()
    ensures runs { NodesRun Behind }
    ensures stand { NodesStand Behind }
{
    law_running_line::laws::the_relation_goes_on_behind_the_reading();
    law_running_line::laws::one_standing_in_the_relation();
}

/// And so they do where each node reads all that its sensors saw before it takes an input.
pub fn woven_nodes_run_that_read_first()
    ensures runs { NodesRun Strictly }
    ensures stand { NodesStand Strictly }
{
    law_running_line::laws::the_relation_goes_on_behind_the_reading();
    law_running_line::laws::the_relation_goes_on_in_a_turn();
    law_running_line::laws::one_standing_in_the_relation();
}

/// What a poll finds on a connection between two nodes is a front of what was said on it and not
/// heard: since the ports of one node took a front of what its machine said there, those of the
/// other give a front of that, and all that they gave before was heard.
pub fn what_is_found_was_said()
    ensures { FoundWasSaid }
{}
