//! The relation of a link between two machines, kept by every event: which board is whose,
//! whatever the link, the floor and the two machines meet. There is no code here: each law is the
//! contract of a function without a body.
#![tactic(auto)]

pub mod bytes;
pub mod keeps;
pub mod late;
pub mod laws;
