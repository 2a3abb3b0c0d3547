// The replay script: its lines read, and its output's numbers and bytes spelled.
#![tactic(auto)]

pub mod begins;
pub mod bytes;
pub mod calls;
pub mod command;
pub mod field;
pub mod line;
pub mod number;
mod pairs;
pub mod text;
pub mod typed;
