// Forged states of eight callers: "16 .. if a transfer is under way, if nobody has the turn or if that caller's transfer .. has fields a coming refuses".
// Rows that differ in the field that they vary stay functions of their own: one over a closure that sets it would be longer.
use crate::forged;
use crate::forged::{BEGUN, busy, stage};
use crate::hosts::{BULK, CONTROL, Came, NOBODY, Turns, bulk, control, host, state, waiting};
use host::fields::{BulkFields, ControlFields};
use std::io;
use std::io::Write;
use transfers::wire::Direction;

// Each came with a bulk IN of no bytes.
fn turned<W: Write>(out: &mut W, turns: Turns) -> io::Result<()> {
    state(out, host(turns, bulk(Direction::In, BULK)), 0, &[])
}

fn with_turn<W: Write>(out: &mut W, turn: u8, who: &str, callers: &[u8]) -> io::Result<()> {
    let waiting = waiting(callers);
    write!(out, "turn {turn}, {who}:")?;
    turned(
        out,
        Turns {
            turn,
            waiting,
            ..NOBODY
        },
    )
}

// A turn above 7 is nobody's: with nobody waiting 16, else the next that waits has it.
fn nobodys<W: Write>(out: &mut W) -> io::Result<()> {
    with_turn(out, 8, "nobody waits", &[])?;
    with_turn(out, 9, "nobody waits", &[])?;
    with_turn(out, 255, "nobody waits", &[])?;
    with_turn(out, 8, "3 waits", &[3])?;
    with_turn(out, 9, "3 waits", &[3])?;
    with_turn(out, 255, "3 waits", &[3])
}

// The turn of a caller that doesn't wait: 16, whoever else does.
fn not_waiting<W: Write>(out: &mut W) -> io::Result<()> {
    with_turn(out, 3, "3 waits", &[3])?;
    with_turn(out, 3, "nobody waits", &[])?;
    with_turn(out, 3, "5 waits", &[5])
}

// A turn that is stored while a transfer is under way: 16.
fn under_way<W: Write>(out: &mut W) -> io::Result<()> {
    let inward = stage(Direction::In, false, BEGUN);
    let turns = Turns {
        run: Some(busy(forged::bulk(Direction::In, 2), inward)),
        waiting: waiting(&[3]),
        ..NOBODY
    };
    write!(out, "under way, turn 3, 3 waits:")?;
    turned(out, Turns { turn: 3, ..turns })?;
    write!(out, "under way, turn 8, 3 waits:")?;
    turned(out, turns)
}

fn with_last<W: Write>(out: &mut W, last: u8, who: &str, callers: &[u8]) -> io::Result<()> {
    let waiting = waiting(callers);
    write!(out, "last {last}, {who}:")?;
    turned(
        out,
        Turns {
            last,
            waiting,
            ..NOBODY
        },
    )
}

// After a last starter above 7 the round begins at 0.
fn round<W: Write>(out: &mut W) -> io::Result<()> {
    with_last(out, 8, "5 waits", &[5])?;
    with_last(out, 8, "7 waits", &[7])?;
    with_last(out, 8, "0 and 5 wait", &[0, 5])?;
    with_last(out, 255, "5 waits", &[5])?;
    with_last(out, 255, "7 waits", &[7])?;
    with_last(out, 255, "0 and 5 wait", &[0, 5])
}

// Caller 3 has the turn and came with these fields.
fn lent<W: Write>(out: &mut W, came: Came, buf: &[u8]) -> io::Result<()> {
    let turns = Turns {
        turn: 3,
        waiting: waiting(&[3]),
        ..NOBODY
    };
    state(out, host(turns, came), 0, buf)
}

fn control_address<W: Write>(out: &mut W, address: u8) -> io::Result<()> {
    write!(out, "control came, address {address}:")?;
    lent(out, control(ControlFields { address, ..CONTROL }), &[])
}

fn control_size<W: Write>(out: &mut W, size: u8) -> io::Result<()> {
    write!(out, "control came, packet size {size}:")?;
    lent(out, control(ControlFields { size, ..CONTROL }), &[])
}

fn long_control<W: Write>(out: &mut W) -> io::Result<()> {
    let wide = [0u8; 65536];
    let length = wide.len();
    write!(out, "control came, 65,536 bytes:")?;
    lent(out, control(ControlFields { length, ..CONTROL }), &wide)
}

// 12 and 13; a control has no 11 and 14.
fn controls<W: Write>(out: &mut W) -> io::Result<()> {
    control_address(out, 127)?;
    control_address(out, 128)?;
    control_size(out, 0)?;
    control_size(out, 1)?;
    control_size(out, 64)?;
    control_size(out, 65)?;
    long_control(out)
}

fn name(direction: Direction) -> &'static str {
    match direction {
        Direction::In => "bulk IN",
        Direction::Out => "bulk OUT",
    }
}

fn bulk_address<W: Write>(out: &mut W, direction: Direction, address: u8) -> io::Result<()> {
    write!(out, "{} came, address {address}:", name(direction))?;
    lent(out, bulk(direction, BulkFields { address, ..BULK }), &[])
}

fn bulk_endpoint<W: Write>(out: &mut W, direction: Direction, endpoint: u8) -> io::Result<()> {
    write!(out, "{} came, endpoint {endpoint}:", name(direction))?;
    lent(out, bulk(direction, BulkFields { endpoint, ..BULK }), &[])
}

fn bulk_size<W: Write>(out: &mut W, direction: Direction, size: u16) -> io::Result<()> {
    write!(out, "{} came, packet size {size}:", name(direction))?;
    lent(out, bulk(direction, BulkFields { size, ..BULK }), &[])
}

// 12, 11 and 13.
fn bulks<W: Write>(out: &mut W, direction: Direction) -> io::Result<()> {
    bulk_address(out, direction, 127)?;
    bulk_address(out, direction, 128)?;
    bulk_endpoint(out, direction, 0)?;
    bulk_endpoint(out, direction, 1)?;
    bulk_endpoint(out, direction, 15)?;
    bulk_endpoint(out, direction, 16)?;
    bulk_size(out, direction, 0)?;
    bulk_size(out, direction, 1)?;
    bulk_size(out, direction, 64)?;
    bulk_size(out, direction, 65)
}

// 14, with a buffer of the length that it came with.
fn long_bulks<W: Write>(out: &mut W, direction: Direction) -> io::Result<()> {
    let most = [0u8; 65535];
    let above = [0u8; 65536];
    let length = most.len();
    write!(out, "{} came, 65,535 bytes:", name(direction))?;
    lent(out, bulk(direction, BulkFields { length, ..BULK }), &most)?;
    let length = above.len();
    write!(out, "{} came, 65,536 bytes:", name(direction))?;
    lent(out, bulk(direction, BulkFields { length, ..BULK }), &above)
}

pub(crate) fn callers<W: Write>(out: &mut W) -> io::Result<()> {
    nobodys(out)?;
    not_waiting(out)?;
    under_way(out)?;
    round(out)?;
    controls(out)?;
    bulks(out, Direction::In)?;
    bulks(out, Direction::Out)?;
    long_bulks(out, Direction::In)?;
    long_bulks(out, Direction::Out)
}
