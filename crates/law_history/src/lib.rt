//! What looks back over the report of a line: what was heard before a board settled, which record
//! it is that settles, whose start the record is of that an intake holds, and which start an
//! opening answers. There is no code here: each law is the contract of a function without a body.
//!
//! For a reader: specs/Settled, specs/LetGo, specs/Started and specs/Opened.
#![tactic(auto)]

pub mod laws;
