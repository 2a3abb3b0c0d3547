// Sets of the numbers 0 to 31, a pool of up to 32 equal things over such a set,
// and the step between a pool's index and a pipe's number.
#![tactic(auto)]

pub mod async_pool;
pub mod bitset;
pub mod pipe;
