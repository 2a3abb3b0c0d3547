// How a program that prints to any writer plays a script: whole blocks come together in a cursor before they are written out.
ghost use Rattle.std.specs.Prelude.{◌++◌, OnOk, codes};
ghost use Rattle.std.specs.Fmt.{decimal};
ghost use Rattle.std.specs.Io.KnownBytes.{Appends};
ghost use Rattle.session.specs.Prints.{Grows};

use crate::player::Play;
use crate::read::{Lines, Turn};
use printing::print_unreadable;
use std::io;
use std::io::{Cursor, Read, Write};

// The block of a line that can't be read.
fn unreadable<W: Write>(out: &mut W, number: usize) -> io::Result<()>
    ensures { OnOk result (Appends (W.contents out.old) (W.contents out.new) (codes "line " ++ decimal number ++ codes ": not a line of a script\n.\n")) }
{
    print_unreadable(out, number)?;
    writeln!(out, ".")
}

fn play_line<P: Play, W: Write>(player: &mut P, lines: &Lines, out: &mut W) -> io::Result<()> {
    match lines.text() {
        Some(text) => player.play(lines.number(), text, out),
        None => unreadable(out, lines.number()),
    }
}

#[tactic(auto, using(crate::proofs::Grows::grows_by))]
fn flush<W: Write, const N: usize>(to: &mut W, out: &mut Cursor<[u8; N]>) -> io::Result<()>
    ensures { OnOk result (Grows (W.contents to.old) (W.contents to.new)) }
{
    let at = out.position() as usize;
    out.set_position(0);
    to.write_all(out.get_ref().get(..at).unwrap_or_default())
}

// After a block: an output that is long enough is written out. A block of at most 983,041 bytes finds room behind less than 65,536; printing a longer one may fail.
#[tactic(auto, using(crate::proofs::Grows::grows_refl))]
fn flush_long<W: Write, const N: usize>(to: &mut W, out: &mut Cursor<[u8; N]>) -> io::Result<()>
    ensures { OnOk result (Grows (W.contents to.old) (W.contents to.new)) }
{
    if out.position() < 65536 {
        return Ok(());
    }
    flush(to, out)
}

fn play_whole<P: Play, W: Write, const N: usize>(
    player: &mut P,
    lines: &Lines,
    to: &mut W,
    out: &mut Cursor<[u8; N]>,
) -> io::Result<()>
    ensures { OnOk result (Grows (W.contents to.old) (W.contents to.new)) }
{
    play_line(player, lines, out)?;
    flush_long(to, out)
}

// It counts up to a number that no run uses up, as `player`'s does.
pub(crate) fn play_lines<P: Play, R: Read, W: Write, const N: usize>(
    player: &mut P,
    input: &mut R,
    to: &mut W,
    out: &mut Cursor<[u8; N]>,
) -> io::Result<()>
    ensures { OnOk result (Grows (W.contents to.old) (W.contents to.new)) }
{
    let mut lines = Lines::new();
    for _ in 0..u64::MAX {
        match lines.turn(input) {
            Ok(Turn::Whole) => play_whole(player, &lines, to, out)?,
            Ok(Turn::Part) => {}
            Ok(Turn::End) => break,
            Err(failed) => {
                flush(to, out)?;
                return Err(failed);
            }
        }
    }
    flush(to, out)
}
