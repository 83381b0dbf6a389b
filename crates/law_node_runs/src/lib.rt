//! A node's run: what its ports answer, and the moment of each of its moves, leave no choice of its
//! calls, its log, its book and its end; each list of answers has such a run; and the bytes of each
//! connection go in their order. There is no code here: each law is the contract of a function without
//! a body.
//!
//! For a reader: specs/One; specs/Each; over a restart book specs/Kept, First and PowerCut; specs/Doings,
//! what happens in a run, specs/Connections and OldBytes.
#![tactic(auto)]

pub mod each_run;
pub mod kept_runs;
pub mod node_connections;
pub mod one_run;
