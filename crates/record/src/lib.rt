// The wire record: its writer and its reader. Term 3 is stated in specs/Term3.antt and proved in proofs/Term3.antt.
#![tactic(auto)]

pub mod items;
pub mod look;
pub mod reader;
pub mod refusal;
pub mod scan;
pub mod writer;
