// "16 nothing under way that this call serves": every kind of transfer in every stage.
use crate::forged::{BEGUN, EMPTY, bulk, busy, control, stage, state};
use std::io;
use std::io::Write;
use transfers::driver::{Kind, Stage};
use transfers::host_controller::DataPhase;
use transfers::wire::Direction;

fn every_stage<W: Write>(out: &mut W, name: &str, kind: Kind) -> io::Result<()> {
    write!(out, "{name}, SETUP:")?;
    state(out, Some(busy(kind, Stage::Setup)))?;
    write!(out, "{name}, IN data:")?;
    state(out, Some(busy(kind, stage(Direction::In, false, BEGUN))))?;
    write!(out, "{name}, OUT data:")?;
    state(out, Some(busy(kind, stage(Direction::Out, false, BEGUN))))?;
    write!(out, "{name}, IN status:")?;
    state(out, Some(busy(kind, stage(Direction::In, true, EMPTY))))?;
    write!(out, "{name}, OUT status:")?;
    state(out, Some(busy(kind, stage(Direction::Out, true, EMPTY))))
}

pub(crate) fn stages<W: Write>(out: &mut W) -> io::Result<()> {
    write!(out, "idle:")?;
    state(out, None)?;
    every_stage(out, "bulk IN", bulk(Direction::In, 2))?;
    every_stage(out, "bulk OUT", bulk(Direction::Out, 2))?;
    every_stage(out, "control In", control(DataPhase::In, 4))?;
    every_stage(out, "control Out", control(DataPhase::Out, 4))?;
    every_stage(out, "control None", control(DataPhase::None, 4))
}
