//! One standing: after each line of a script whose sensors told the truth, each board's record
//! stands with one machine, or in one handover between two neighbours. There is no code here: the
//! law is the contract of a function without a body.
//!
//! For a reader of what is said: specs/Standing alone. For a reader of how it is shown, in this
//! order: machines and what is between them by their number (specs/Relation, Places, Kept), the
//! bytes of a link as messages (specs/Carried, Links, Waits), the relation of the whole line
//! (specs/Stands), and a step of a machine of the line as one in its scene (specs/Mirrors).
#![tactic(auto)]

pub mod laws;
