// Lists the descriptors of many configurations.
#![tactic(auto)]

use cases::{Kind, print_cases};
use std::io;

fn main(rt: HostRuntime) -> io::Result<()> {
    print_cases(&mut rt.stdin(), &mut rt.stdout(), Kind::Configurations)
}
