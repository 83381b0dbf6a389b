//! The merged log of joined nodes. Each law is a contract over the definitions of specs/.

ghost use Rattle.law_running_line.specs.Reading.{Behind, Reading};
ghost use Rattle.law_joined_nodes.specs.Logged.{IsWovenToo, NodesLogRight};
ghost use Rattle.law_joined_nodes.specs.PouredLog.{IsPouredToo, PouredLogRight};

/// A woven run with its merged log is a woven run.
pub fn a_run_with_its_log_is_woven()
    ensures { (reading : Reading) → IsWovenToo reading }
{}

/// THE LAW OVER THE LOGS OF JOINED NODES: in whatever order their moves fall, nothing is against
/// what they log, merged in that order, where each board is let go behind the reading, and each
/// message is heard once all is read that its receiver's sensors had seen before it was said. Its
/// deeds are legal in their order, and behind each group of lines each id with a mark has one
/// standing.
pub fn the_merged_log_of_woven_nodes_is_right()
    ensures { NodesLogRight Behind }
{
    law_running_line::laws::the_relation_goes_on_behind_the_reading();
    law_running_logs::laws::the_merged_log_of_a_run_behind_the_reading_is_right();
}

/// A run over TCP with its merged log is a run over TCP.
pub fn a_run_over_tcp_with_its_log_is_one()
    ensures { (reading : Reading) → IsPouredToo reading }
{}

/// And so it is where of the connections between the nodes no more is known than what TCP gives, and
/// no side that has one is reset: nothing is against what they log.
pub fn the_merged_log_over_tcp_is_right()
    ensures { PouredLogRight Behind }
{
    law_running_line::laws::the_relation_goes_on_behind_the_reading();
    law_running_logs::laws::the_merged_log_of_a_run_behind_the_reading_is_right();
}
