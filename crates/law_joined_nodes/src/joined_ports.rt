//! The laws over connections. Each is a contract over the definitions of specs/.

ghost use Rattle.law_running_line.specs.Reading.{Behind, Strictly};
ghost use Rattle.law_joined_nodes.specs.Poured.{PouredStand, TcpIsEnough};

/// Where the connections between joined nodes carry bytes in their order, what a poll finds on one
/// is a front of what was said there and not heard: so a run over such connections, in which no side
/// that has one is reset, is a woven run, and each board's record has one standing behind each step.
pub fn what_carries_bytes_in_order_is_enough()
    ensures woven { TcpIsEnough Behind }
    ensures stand { PouredStand Behind }
{
    law_running_line::laws::the_relation_goes_on_behind_the_reading();
    law_running_line::laws::one_standing_in_the_relation();
}

/// And so it is where each node reads all that its sensors saw before it takes an input.
pub fn what_carries_bytes_in_order_is_enough_where_nodes_read_first()
    ensures woven { TcpIsEnough Strictly }
    ensures stand { PouredStand Strictly }
{
    law_running_line::laws::the_relation_goes_on_behind_the_reading();
    law_running_line::laws::the_relation_goes_on_in_a_turn();
    law_running_line::laws::one_standing_in_the_relation();
}
