//! That there is one run. The law is a contract over the definitions of specs/.

ghost use Rattle.law_node_runs.specs.Each.{EachOutsideHasOneRun};

/// Whatever the ports answer, and whatever the moment of each move is, a node has exactly one run,
/// and it comes to its end. Of the answers it is asked that a poll gives no more bytes than it has
/// room for, of the settings that the machine's number has 32 bits.
pub fn each_outside_has_one_run()
    ensures { EachOutsideHasOneRun }
{
    node_core::laws::one_meaning();
    hermes_vertical::spelled_once();
    hermes_vertical::refused_once();
    config_service::spelled_once();
    config_service::refused_once();
}
