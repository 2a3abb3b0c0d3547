// Forged shares, spent counts and frames: a start of the caller whose turn it is answers 16 if its remainder is too small. Buffers have 4 bytes.
use crate::hosts::{BULK, CONTROL, Came, NOBODY, Turns, bulk, control, host, state, waiting};
use host::controller::HostController;
use host::fields::{BulkFields, ControlFields};
use std::io;
use std::io::Write;
use transfers::wire::{Direction, SetupPacket};

// All eight have this share.
fn with_shares(mut h: HostController, quota: u32, used: [u32; 8]) -> HostController {
    let mut d = h.dispatcher;
    for (caller, used) in d.callers.iter_mut().zip(&used) {
        caller.quota = quota;
        caller.used = *used;
    }
    h.dispatcher = d;
    h
}

// A share, the spent counts, which are equal, and the frame number that a call says.
#[derive(Clone, Copy)]
struct Spending {
    quota: u32,
    used: u32,
    frame: u32,
}

// A share of 4, and nothing spent of it.
const FOUR: Spending = Spending {
    quota: 4,
    used: 0,
    frame: 0,
};

// Caller 3 waits.
fn sharing<W: Write>(out: &mut W, turn: u8, came: Came, spending: Spending) -> io::Result<()> {
    let turns = Turns {
        turn,
        waiting: waiting(&[3]),
        ..NOBODY
    };
    let forged = with_shares(host(turns, came), spending.quota, [spending.used; 8]);
    state(out, forged, spending.frame, &[0; 4])
}

// A remainder that is just enough for 4 bytes and one that is a byte less; then spent counts above the share. A turn that is stored stays, whatever the remainder.
fn remainders<W: Write>(out: &mut W, name: &str, turn: u8, came: Came) -> io::Result<()> {
    let cases = [
        ("0 of 4", 4, 0),
        ("0 of 3", 3, 0),
        ("5 of 9", 9, 5),
        ("6 of 9", 9, 6),
        ("4,294,967,291 of 4,294,967,295", 0xFFFF_FFFF, 0xFFFF_FFFB),
        ("4,294,967,292 of 4,294,967,295", 0xFFFF_FFFF, 0xFFFF_FFFC),
        ("5 of 4", 4, 5),
        ("4,294,967,295 of 0", 0, 0xFFFF_FFFF),
    ];
    for (what, quota, used) in cases {
        let spending = Spending {
            quota,
            used,
            ..FOUR
        };
        write!(out, "{name}, {what} spent:")?;
        sharing(out, turn, came, spending)?;
    }
    Ok(())
}

// Caller 3 has spent more than its share of 4, and 5 nothing.
fn passed_over<W: Write>(out: &mut W, came: Came) -> io::Result<()> {
    let turns = Turns {
        waiting: waiting(&[3, 5]),
        ..NOBODY
    };
    let forged = with_shares(host(turns, came), 4, [0, 0, 0, 5, 0, 0, 0, 0]);
    write!(out, "3 has spent 5 of 4, 3 and 5 wait:")?;
    state(out, forged, 0, &[0; 4])
}

// A share of 4, with other bytes stored than caller 3 came with: the turn goes by those stored, and a start by those it came with.
fn stored<W: Write>(out: &mut W, turn: u8, length: usize, requested: usize) -> io::Result<()> {
    let came = bulk(Direction::In, BulkFields { length, ..BULK });
    sharing(out, turn, Came { requested, ..came }, FOUR)
}

fn others_stored<W: Write>(out: &mut W) -> io::Result<()> {
    write!(out, "bulk IN, came with 4, 5 stored:")?;
    stored(out, 8, 4, 5)?;
    write!(
        out,
        "bulk IN, came with 4, 18,446,744,073,709,551,615 stored:"
    )?;
    stored(out, 8, 4, 0xFFFF_FFFF_FFFF_FFFF)?;
    write!(out, "bulk IN, came with 4, 5 stored, turn 3:")?;
    stored(out, 3, 4, 5)?;
    write!(out, "bulk IN, came with 5, 4 stored:")?;
    stored(out, 8, 5, 4)
}

// Another frame number than the last seen sets the spent counts to 0, above the share or not. Nothing of this stays after a refused start.
fn frames<W: Write>(out: &mut W, came: Came) -> io::Result<()> {
    let four = Spending { used: 4, ..FOUR };
    let five = Spending { used: 5, ..FOUR };
    let three = Spending {
        quota: 3,
        used: 3,
        frame: 1,
    };
    write!(out, "bulk IN, 4 of 4 spent:")?;
    sharing(out, 8, came, four)?;
    write!(out, "bulk IN, 4 of 4 spent, next frame:")?;
    sharing(out, 8, came, Spending { frame: 1, ..four })?;
    write!(out, "bulk IN, 5 of 4 spent, next frame:")?;
    sharing(out, 3, came, Spending { frame: 1, ..five })?;
    write!(out, "bulk IN, 3 of 3 spent, next frame:")?;
    sharing(out, 3, came, three)
}

// A SETUP that asks for 4 bytes.
fn control_of_four() -> Came {
    let setup = SetupPacket {
        wLength: 4,
        ..CONTROL.setup
    };
    control(ControlFields {
        setup,
        length: 4,
        ..CONTROL
    })
}

pub(crate) fn shares<W: Write>(out: &mut W) -> io::Result<()> {
    let four = BulkFields { length: 4, ..BULK };
    let inward = bulk(Direction::In, four);
    remainders(out, "control, turn 3", 3, control_of_four())?;
    remainders(out, "bulk IN, turn 3", 3, inward)?;
    remainders(out, "bulk OUT, turn 3", 3, bulk(Direction::Out, four))?;
    remainders(out, "bulk IN, nobody's turn", 8, inward)?;
    passed_over(out, inward)?;
    others_stored(out)?;
    frames(out, inward)
}
