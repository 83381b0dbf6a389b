//! Nodes whose ports are joined to one another: they run as their machines do, over TCP what they find
//! was said there, and their merged log is right. There is no code here: each law is the contract of a
//! function without a body of its own.
//!
//! For a reader: specs/Does, what a move of a node does; specs/Joined, joined nodes; specs/Woven, what
//! happens among them; specs/Laws, the laws; specs/Pipes, what ports took and gave, and specs/Poured,
//! the law over TCP; specs/Logged, a run with its merged log, and its law.
#![tactic(auto)]

pub mod joined_logs;
pub mod joined_nodes;
pub mod joined_ports;
