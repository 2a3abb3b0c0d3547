// Plays a script of comings, looks, starts and driver calls on a host, and prints what each answers, writes, arms and changes.
#![tactic(auto)]

mod comings;
mod line;
mod play;
mod starts;
mod state;

use crate::state::Callers;
use session::player::play_script;
use std::io;

fn main(rt: HostRuntime) -> io::Result<()> {
    play_script(&mut Callers::new(), &mut rt.stdin(), &mut rt.stdout())
}
