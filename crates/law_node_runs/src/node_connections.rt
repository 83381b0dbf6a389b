//! What goes over a connection. Each law is a contract over the definitions of specs/.

ghost use Rattle.law_node_runs.specs.Connections.{ConnectionsAreInOrder};
ghost use Rattle.law_node_runs.specs.OldBytes.{NothingOldIsSent};

/// What happens in each run of a node, move by move; and at both of its sides: what the ports took of its
/// way since that was closed last is a front of the texts that were said there since then, by its
/// machine's acts and at a reset of the side; and what the machine heard there since a connection
/// arrived last is a front of the bytes that the ports gave since then. A text that answers a second
/// connection is no part of either. So nothing is said or heard twice, out of order, or on the
/// connection before.
pub fn the_bytes_of_a_connection_are_in_order()
    ensures { ConnectionsAreInOrder }
{}

/// What was said on a connection isn't sent on the next one: behind a close of a way the ports take a
/// front of what was said there since, and nothing that waited before it.
pub fn nothing_old_is_sent()
    ensures { NothingOldIsSent }
{}
