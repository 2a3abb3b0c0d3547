// Lists the record on standard input.
// A program of its own for each listing: reading and one call.
#![tactic(auto)]

use input::{first, read_input};
use listing::print_record;
use std::io;

fn main(rt: HostRuntime) -> io::Result<()> {
    let mut room = [0u8; 65537];
    let n = read_input(&mut rt.stdin(), &mut room)?;
    print_record(&mut rt.stdout(), first(&room, n))
}
