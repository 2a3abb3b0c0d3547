// What the programs that play a script share: the input's lines, the session that they leave behind, every line that begins no transfer, and the lines of a block.
// What makes a room is inlined, here and in the programs, so that the room is made in its place: docs/DESIGN-PASS.md, "Speed".
#![tactic(auto)]

mod answers;
mod armed;
pub mod begin;
mod cursor;
mod effects;
pub mod log;
pub mod output;
mod pipes;
pub mod play;
pub mod player;
pub mod print;
mod read;
mod runs;
pub mod state;
mod step;
#[cfg(test)]
mod tests;
