// The other conditions of 16, on both sides of each bound. Buffers have 4 bytes. What varies a field is a function of its own, as in callers.rt.
use crate::forged::{BEGUN, EMPTY, Moved, after_data, bulk, busy, control, sampled, stage, state};
use std::io;
use std::io::Write;
use transfers::driver::{Request, Run, Stage};
use transfers::host_controller::DataPhase;
use transfers::sample::Sample;
use transfers::wire::Direction;

// A bulk IN and a bulk OUT.
fn bulks<W: Write>(out: &mut W, what: &str, endpoint: u8, moved: Moved) -> io::Result<()> {
    let inward = stage(Direction::In, false, moved);
    let outward = stage(Direction::Out, false, moved);
    write!(out, "bulk IN, {what}:")?;
    state(out, Some(busy(bulk(Direction::In, endpoint), inward)))?;
    write!(out, "bulk OUT, {what}:")?;
    state(out, Some(busy(bulk(Direction::Out, endpoint), outward)))
}

fn moving<W: Write>(out: &mut W, what: &str, offset: u16, remain: u16) -> io::Result<()> {
    let moved = Moved {
        offset,
        remain,
        ..BEGUN
    };
    bulks(out, what, 2, moved)
}

// "more than two in flight", "offset plus rest above the stage's length"
fn data<W: Write>(out: &mut W) -> io::Result<()> {
    let two = Moved {
        inflight: 2,
        ..BEGUN
    };
    let three = Moved {
        inflight: 3,
        ..BEGUN
    };
    bulks(out, "2 in flight", 2, two)?;
    bulks(out, "3 in flight", 2, three)?;
    moving(out, "offset 1 and rest 3 of 4", 1, 3)?;
    moving(out, "offset 1 and rest 4 of 4", 1, 4)?;
    moving(out, "offset 2 and rest 3 of 4", 2, 3)?;
    moving(out, "offset and rest 65,535", 65535, 65535)
}

// The same of a status stage, whose length is 0.
fn ending<W: Write>(out: &mut W, what: &str, moved: Moved) -> io::Result<()> {
    let outward = stage(Direction::Out, true, moved);
    write!(out, "control In, status, {what}:")?;
    state(out, Some(busy(control(DataPhase::In, 4), outward)))
}

fn status<W: Write>(out: &mut W) -> io::Result<()> {
    let two = Moved {
        inflight: 2,
        ..EMPTY
    };
    let three = Moved {
        inflight: 3,
        ..EMPTY
    };
    let rest = Moved { remain: 1, ..EMPTY };
    let past = Moved { offset: 1, ..EMPTY };
    ending(out, "2 in flight", two)?;
    ending(out, "3 in flight", three)?;
    ending(out, "offset 0 and rest 1", rest)?;
    ending(out, "offset 1 and rest 0", past)
}

// "a data or status stage longer than begin's buffer"
fn length<W: Write>(out: &mut W, wLength: u16) -> io::Result<()> {
    let inward = stage(Direction::In, false, BEGUN);
    let outward = stage(Direction::Out, false, BEGUN);
    write!(out, "control In, wLength {wLength} of 4:")?;
    state(out, Some(busy(control(DataPhase::In, wLength), inward)))?;
    write!(out, "control Out, wLength {wLength} of 4:")?;
    state(out, Some(busy(control(DataPhase::Out, wLength), outward)))
}

fn addresses<W: Write>(out: &mut W, name: &str, run: Run) -> io::Result<()> {
    for address in [127, 128] {
        let request = Request {
            address,
            ..run.request
        };
        write!(out, "{name}, address {address}:")?;
        state(out, Some(Run { request, ..run }))?;
    }
    Ok(())
}

fn sizes<W: Write>(out: &mut W, name: &str, run: Run) -> io::Result<()> {
    for size in [0, 1, 64, 65] {
        let request = Request {
            size,
            ..run.request
        };
        write!(out, "{name}, packet size {size}:")?;
        state(out, Some(Run { request, ..run }))?;
    }
    Ok(())
}

// "an address, endpoint or packet size that begin refuses"
fn request<W: Write>(out: &mut W, name: &str, run: Run) -> io::Result<()> {
    addresses(out, name, run)?;
    sizes(out, name, run)
}

fn endpoints<W: Write>(out: &mut W) -> io::Result<()> {
    bulks(out, "endpoint 0", 0, BEGUN)?;
    bulks(out, "endpoint 1", 1, BEGUN)?;
    bulks(out, "endpoint 15", 15, BEGUN)?;
    bulks(out, "endpoint 16", 16, BEGUN)
}

fn fields<W: Write>(out: &mut W) -> io::Result<()> {
    let inward = stage(Direction::In, false, BEGUN);
    let outward = stage(Direction::Out, false, BEGUN);
    request(out, "bulk IN", busy(bulk(Direction::In, 2), inward))?;
    request(out, "bulk OUT", busy(bulk(Direction::Out, 2), outward))?;
    let setup = busy(control(DataPhase::In, 4), Stage::Setup);
    request(out, "control In, SETUP", setup)?;
    let setup = busy(control(DataPhase::Out, 4), Stage::Setup);
    request(out, "control Out, SETUP", setup)?;
    endpoints(out)
}

// What a control In has received is not among 16's conditions: its status stage answers it, forged or not.
fn received<W: Write>(out: &mut W) -> io::Result<()> {
    let complete = Sample {
        status: 0x40000,
        intr: 0x8,
        buffers: 0,
    };
    let forged = busy(control(DataPhase::In, 4), after_data(9999));
    write!(out, "control In, status complete, 9999 received of 4:")?;
    sampled(out, Some(forged), complete)
}

pub(crate) fn bounds<W: Write>(out: &mut W) -> io::Result<()> {
    data(out)?;
    status(out)?;
    length(out, 4)?;
    length(out, 5)?;
    fields(out)?;
    received(out)
}
