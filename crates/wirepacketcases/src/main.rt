// Prints the packets of many records.
#![tactic(auto)]

use cases::{Kind, print_cases};
use std::io;

fn main(rt: HostRuntime) -> io::Result<()> {
    print_cases(&mut rt.stdin(), &mut rt.stdout(), Kind::Packets)
}
