// Writes the packets of the record on standard input as a pcap file.
// A program of its own for each listing: reading and one call.
#![tactic(auto)]

use capture::{Form, print_capture};
use input::{first, read_input};
use std::io;

fn main(rt: HostRuntime) -> io::Result<()> {
    let mut room = [0u8; 65537];
    let n = read_input(&mut rt.stdin(), &mut room)?;
    print_capture(&mut rt.stdout(), Form::Pcap, first(&room, n))
}
