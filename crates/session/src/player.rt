// How a program plays a script: whole blocks come together before they are written out.
ghost use Rattle.std.specs.Prelude.{◌≡◌, OnOk};
ghost use Rattle.std.specs.Io.KnownBytes.{Appends};
ghost use Rattle.session.specs.Prints.{kept, Grows};

use crate::cursor;
use crate::output::Output;
use crate::play::unreadable;
use crate::read::{Lines, Turn};
use std::io;
use std::io::{Cursor, Read, Write};

// A program that plays a script and prints to the room of its blocks, which can't fail.
pub trait PlayScript {
    // Plays the line of this number and text, and prints its block.
    fn play(&mut self, number: usize, text: &[u8], out: &mut Output);
}

// A program that plays a script and prints to any writer, which may fail.
pub trait Play {
    // Plays the line of this number and text, and prints its block.
    fn play<W: Write>(&mut self, number: usize, text: &[u8], out: &mut W) -> io::Result<()>;
}

fn play_line<P: PlayScript>(player: &mut P, lines: &Lines, out: &mut Output) {
    match lines.text() {
        Some(text) => player.play(lines.number(), text, out),
        None => unreadable(out, lines.number()),
    }
}

// Writes out what is kept.
fn flush<W: Write>(to: &mut W, out: &mut Output) -> io::Result<()>
    ensures written { OnOk result (Appends (W.contents to.old) (W.contents to.new) (kept out.old)) }
    ensures emptied { out.new.used ≡ 0 }
{
    let written = to.write_all(out.text());
    out.used = 0;
    written
}

// After a block: an output that is long enough is written out. A block has at most 888,617 bytes, so that with less than 65,536 before it 1,048,576 are room enough.
#[tactic(auto, using(crate::proofs::Grows::grows_refl, crate::proofs::Grows::grows_by))]
fn flush_long<W: Write>(to: &mut W, out: &mut Output) -> io::Result<()>
    ensures { OnOk result (Grows (W.contents to.old) (W.contents to.new)) }
{
    if out.used < 65536 {
        return Ok(());
    }
    flush(to, out)
}

fn play_whole<P: PlayScript, W: Write>(
    player: &mut P,
    lines: &Lines,
    to: &mut W,
    out: &mut Output,
) -> io::Result<()>
    ensures { OnOk result (Grows (W.contents to.old) (W.contents to.new)) }
{
    play_line(player, lines, out);
    flush_long(to, out)
}

// A proved loop has to end, and nothing says that the input does: it counts up to a number that no run uses up.
fn play_lines<P: PlayScript, R: Read, W: Write>(
    player: &mut P,
    input: &mut R,
    to: &mut W,
    out: &mut Output,
) -> io::Result<()>
    ensures { OnOk result (Grows (W.contents to.old) (W.contents to.new)) }
{
    let mut lines = Lines::new();
    for _ in 0..u64::MAX {
        match lines.turn(input) {
            Ok(Turn::Whole) => play_whole(player, &lines, to, out)?,
            Ok(Turn::Part) => {}
            Ok(Turn::End) => break,
            Err(failed) => {
                flush(to, out)?;
                return Err(failed);
            }
        }
    }
    flush(to, out)
}

// Plays each line of the input. Where a read fails, the answers to the lines before it are written out first.
// Which blocks these are, no clause says: each program's stored output holds it.
pub fn play_script<P: PlayScript, R: Read, W: Write>(
    player: &mut P,
    input: &mut R,
    to: &mut W,
) -> io::Result<()>
    ensures { OnOk result (Grows (W.contents to.old) (W.contents to.new)) }
{
    let mut out = Output::new();
    play_lines(player, input, to, &mut out)
}

// Plays each line of the input by a program that prints to a writer. Where its printing fails, nothing more is read, and what waits is not written.
// Where a read fails, the answers to the lines before it are written out first.
pub fn play_all<P: Play, R: Read, W: Write>(
    player: &mut P,
    input: &mut R,
    to: &mut W,
) -> io::Result<()>
    ensures { OnOk result (Grows (W.contents to.old) (W.contents to.new)) }
{
    let mut out = Cursor::new([0u8; 1048576]);
    cursor::play_lines(player, input, to, &mut out)
}
