// Writes and reads packets, line by line: standard input has packets' bytes and readings, standard output the other of the two for each.
#![tactic(auto)]

mod answer;
mod line;

use crate::answer::{LONGEST, answer};
use crate::line::{Command, parse};
use input::{TOO_LONG, Unreadable, first, is_too_long, read_input};
use printing::{print_refused, print_unreadable};
use std::io;
use std::io::Write;

// `shortgroups` goes over lines in the same way: what is said of a line differs, and one loop over a closure would be no shorter.
fn answer_lines<W: Write>(out: &mut W, text: &[u8], bytes: &mut [u8; 131072]) -> io::Result<()> {
    let mut lent = LONGEST;
    for (i, line) in text.split(|b| *b == b'\n').enumerate() {
        match parse(line, bytes) {
            Ok(Some(command)) => {
                answer(out, command, bytes, lent)?;
                if let Command::Lend(n) = command {
                    lent = n;
                }
            }
            Ok(None) => {}
            Err(Unreadable) => print_unreadable(out, i + 1)?,
        }
    }
    Ok(())
}

fn main(rt: HostRuntime) -> io::Result<()> {
    let mut room = [0u8; 65537];
    let mut bytes = [0u8; 131072];
    let n = read_input(&mut rt.stdin(), &mut room)?;
    let text = first(&room, n);
    let mut out = rt.stdout();
    if is_too_long(text) {
        print_refused(&mut out, TOO_LONG)
    } else {
        answer_lines(&mut out, text, &mut bytes)
    }
}
