//! A machine's end of its supervisor's connection: the bytes that came, cut into messages, its
//! session, and what the machine says there. What a message has the machine do is for whoever has
//! the machine.
#![tactic(auto)]

mod channel;
mod said;

pub use channel::{Channel, Found, Word};
pub use said::{notification, refusal_of_second, system_of, told_of_untaken};
