// The walk of a configuration descriptor (USB 2.0 section 9.6).
#![tactic(auto)]

pub mod refusal;
pub mod walk;
