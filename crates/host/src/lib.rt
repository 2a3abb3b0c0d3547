// Eight callers share one driver: comings (`submit_control`, `submit_bulk_in`, `submit_bulk_out`), looks (`whose_turn`) and starts (`start_control`, `start_bulk_in`, `start_bulk_out`).
// Steps, cancel, open, close, poll and detection stay the driver's calls, on the field `driver`.
#![tactic(auto)]

pub mod answers;
pub mod controller;
pub mod fields;
pub mod start;
