// The house's own poll table (document 02, R-7).
#![tactic(auto)]

pub mod refusal;
pub mod table;
