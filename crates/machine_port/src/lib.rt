//! A machine behind its port: one machine step at a time, with the text that waits on the ways to its
//! neighbours and to a supervisor, the levels of its drives and signals, and the connections that it wants closed.
//!
//! Who owns sockets, time and sensors gives an input, and then reads what is to be done: text to be
//! sent, levels, ways to be closed. These are levels and no edges, so nothing is lost where several
//! steps are made before they are read; the acts alone are those of the last step. What a C program
//! reads of it, an act, a record, and their texts, is a struct of numbers or bytes.
#![tactic(auto)]

mod act;
mod board;
mod copied;
mod error;
mod field;
mod levels;
mod numbers;
mod port;
mod supervisor;
mod view;
mod way;

pub use act::{ACT_BYTES, HermesAct, act_seen};
pub use board::{BOARD_BYTES, HermesBoard, board_seen, record_at};
pub use copied::copy_front;
pub use error::NotDone;
pub use field::write_field;
pub use levels::Levels;
pub use port::Port;
pub use view::{HermesView, VIEW_BYTES, view_of};
pub use way::Outgoing;
