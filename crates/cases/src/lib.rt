// Lists many inputs, the cases: the input has one a line, as the replay script's BYTES. Empty lines and lines that begin with # are skipped.
#![tactic(auto)]

use capture::{Form, print_capture};
use descriptorlisting::print_configuration;
use input::{first, read_full};
use listing::print_record;
use script::bytes::bytes;
use script::line::is_skipped;
use std::io;
use std::io::{Read, Write};

const LONGEST: usize = 600000;

// What the inputs are. An enum: a function passed in would ask of `print_cases`' callers that it may be called.
#[derive(Clone, Copy)]
pub enum Kind {
    Records,
    Configurations,
    Packets,
}

fn print_listing<W: Write>(out: &mut W, kind: Kind, bytes: &[u8]) -> io::Result<()> {
    match kind {
        Kind::Records => print_record(out, bytes),
        Kind::Configurations => print_configuration(out, bytes),
        Kind::Packets => print_capture(out, Form::Lines, bytes),
    }
}

// A case's bytes go to the start of the room.
fn print_case<W: Write>(
    out: &mut W,
    kind: Kind,
    line: &[u8],
    room: &mut [u8; 131072],
) -> io::Result<()> {
    match bytes(line, room) {
        Some(n) => print_listing(out, kind, first(room, n))?,
        None => writeln!(out, "not hexadecimal")?,
    }
    writeln!(out, ".")
}

fn print_lines<W: Write>(
    out: &mut W,
    kind: Kind,
    text: &[u8],
    room: &mut [u8; 131072],
) -> io::Result<()> {
    for line in text.split(|b| *b == b'\n') {
        if !is_skipped(line) {
            print_case(out, kind, line, room)?;
        }
    }
    Ok(())
}

// A text that fills its room is too long.
fn print_text<R: Read, W: Write>(
    input: &mut R,
    out: &mut W,
    kind: Kind,
    text: &mut [u8; LONGEST],
    room: &mut [u8; 131072],
) -> io::Result<()> {
    let n = read_full(input, text)?;
    if n == LONGEST {
        return writeln!(out, "too long");
    }
    print_lines(out, kind, first(text, n), room)
}

// It only makes the rooms: an array of so many bytes is in the way of any other proof.
pub fn print_cases<R: Read, W: Write>(input: &mut R, out: &mut W, kind: Kind) -> io::Result<()> {
    let mut text = [0u8; LONGEST];
    let mut room = [0u8; 131072];
    print_text(input, out, kind, &mut text, &mut room)
}
