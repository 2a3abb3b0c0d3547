// States that are put together by hand, and what the calls answer to them.
use std::io;
use std::io::Write;
use transfers::answers::Step;
use transfers::driver::{
    Bulk, Control, DeskRule, Driver, InStage, Kind, OutStage, Request, Run, Stage,
};
use transfers::host_controller::DataPhase;
use transfers::refusal::Refusal;
use transfers::sample::Sample;
use transfers::wire::Direction;

pub(crate) fn bulk(direction: Direction, endpoint: u8) -> Kind {
    Kind::Bulk(Bulk {
        direction,
        endpoint,
        toggle: false,
    })
}

pub(crate) fn control(phase: DataPhase, wLength: u16) -> Kind {
    Kind::Control(Control { phase, wLength })
}

// How far the packets of a stage are.
#[derive(Clone, Copy)]
pub(crate) struct Moved {
    pub inflight: u8,
    pub offset: u16,
    pub remain: u16,
}

// One packet in flight, nothing moved, and 4 bytes left.
pub(crate) const BEGUN: Moved = Moved {
    inflight: 1,
    offset: 0,
    remain: 4,
};

// A status stage's packet, which has no bytes.
pub(crate) const EMPTY: Moved = Moved {
    inflight: 1,
    offset: 0,
    remain: 0,
};

fn out_stage(status: bool, moved: Moved) -> OutStage {
    OutStage {
        status,
        slot: false,
        remain: moved.remain,
        offset: moved.offset,
        zlp: false,
        retire: false,
        inflight: moved.inflight,
        received: 0,
    }
}

// Packets moving IN or OUT, as the data or the status stage.
pub(crate) fn stage(direction: Direction, status: bool, moved: Moved) -> Stage {
    match direction {
        Direction::In => Stage::In(InStage {
            status,
            slot: false,
            toarm: 0,
            zlp: false,
            retire: false,
            remain: moved.remain,
            offset: moved.offset,
            inflight: moved.inflight,
        }),
        Direction::Out => Stage::Out(out_stage(status, moved)),
    }
}

// A control In's status stage, with so many bytes received.
pub(crate) fn after_data(received: u16) -> Stage {
    Stage::Out(OutStage {
        received,
        ..out_stage(true, EMPTY)
    })
}

// To address 5, by packets of 8 bytes. The buffer has 4 bytes.
pub(crate) fn busy(kind: Kind, stage: Stage) -> Run {
    Run {
        request: Request {
            address: 5,
            size: 8,
            kind,
            length: 4,
        },
        stage,
    }
}

pub(crate) fn driver(transfer: Option<Run>) -> Driver {
    Driver {
        transfer,
        ..Driver::new(DeskRule::One)
    }
}

pub(crate) fn print_refusal<W: Write>(out: &mut W, why: Refusal) -> io::Result<()> {
    write!(out, " {}", u8::from(why))
}

fn print_step<W: Write>(out: &mut W, answer: Result<Step, Refusal>) -> io::Result<()> {
    match answer {
        Ok(Step::Waiting(_)) => write!(out, " waiting"),
        Ok(Step::Done(count)) => write!(out, " done {count}"),
        Err(why) => print_refusal(out, why),
    }
}

fn print_cancel<W: Write>(out: &mut W, answer: Result<(), Refusal>) -> io::Result<()> {
    match answer {
        Ok(()) => write!(out, " cancelled"),
        Err(why) => print_refusal(out, why),
    }
}

// What `step_in`, `step_out` and `cancel` answer, each on this state.
pub(crate) fn sampled<W: Write>(out: &mut W, run: Option<Run>, sample: Sample) -> io::Result<()> {
    let mut buf = [0u8; 4];
    let mut pm = [0u8; 4096];
    let mut log = [0u32; 192];
    let forged = driver(run);
    let inward = forged.step_in(sample, &mut buf, &mut pm, &mut log);
    let outward = forged.step_out(sample, &buf, &mut pm, &mut log);
    print_step(out, inward.answer)?;
    print_step(out, outward.answer)?;
    print_cancel(out, forged.cancel().answer)?;
    writeln!(out)
}

// With nothing raised, a step that is not refused waits.
pub(crate) fn state<W: Write>(out: &mut W, run: Option<Run>) -> io::Result<()> {
    let quiet = Sample {
        status: 0,
        intr: 0,
        buffers: 0,
    };
    sampled(out, run, quiet)
}
