// Plays a replay script on the driver and prints what each call answers, writes, arms and changes.
#![tactic(auto)]

mod begin;
mod play;

use crate::play::Replay;
use session::player::play_script;
use std::io;

fn main(rt: HostRuntime) -> io::Result<()> {
    play_script(&mut Replay::new(), &mut rt.stdin(), &mut rt.stdout())
}
