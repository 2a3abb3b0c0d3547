// Lists every short group, line by line: standard input has limits, standard output the groups of each.
// `packets` goes over lines in the same way: what is said of a line differs, and one loop over a closure would be no shorter.
#![tactic(auto)]

mod line;

ghost use Rattle.std.specs.Prelude.{◌≤◌};

use crate::line::{Listing, parse};
use groups::short_groups;
use input::{TOO_LONG, Unreadable, first, is_too_long, read_input};
use printing::{
    print_decimal, print_end, print_number, print_refused, print_text, print_unreadable,
};
use std::io;
use std::io::Write;

// A group's packet count and its lengths.
fn print_group<W: Write>(out: &mut W, lengths: &[u8]) -> io::Result<()> {
    print_decimal(out, lengths.len() as u64)?;
    for n in lengths {
        print_number(out, *n as usize)?;
    }
    print_text(out, b"\n")
}

// Each group on a line, and how many they are. A list cut inside a group, which `short_groups` never writes, has no last line. Each group's first byte tells where the next begins.
fn print_groups<W: Write>(out: &mut W, list: &[u8]) -> io::Result<()> {
    let mut rest = list;
    let mut count: usize = 0;
    while let [k, after @ ..] = rest {
        let Some((lengths, others)) = after.split_at_checked(*k as usize) else {
            return Ok(());
        };
        print_group(out, lengths)?;
        rest = others;
        count += 1;
    }
    print_end(out, count)
}

// Lists the groups that are asked for, or says why they are refused.
fn list_groups<W: Write>(out: &mut W, listing: Listing) -> io::Result<()> {
    let mut room = [0u8; 255];
    let lent = &mut room[..listing.room as usize];
    match short_groups(listing.limit, lent) {
        Err(why) => print_refused(out, u8::from(why)),
        Ok(k) => print_groups(out, first(lent, k)),
    }
}

fn answer_lines<W: Write>(out: &mut W, text: &[u8]) -> io::Result<()> {
    for (i, line) in text.split(|b| *b == b'\n').enumerate() {
        match parse(line) {
            Ok(Some(listing)) => list_groups(out, listing)?,
            Ok(None) => {}
            Err(Unreadable) => print_unreadable(out, i + 1)?,
        }
    }
    Ok(())
}

fn main(rt: HostRuntime) -> io::Result<()> {
    let mut room = [0u8; 65537];
    let n = read_input(&mut rt.stdin(), &mut room)?;
    let text = first(&room, n);
    let mut out = rt.stdout();
    if is_too_long(text) {
        print_refused(&mut out, TOO_LONG)
    } else {
        answer_lines(&mut out, text)
    }
}
