// Host controllers that are put together by hand, and what looks and starts answer to them.
use crate::forged::{driver, print_refusal};
use crate::kept::is_kept;
use cutting::transfer_type::TransferType;
use dispatcher::{Caller, Dispatcher};
use host::controller::HostController;
use host::fields::{BulkFields, ControlFields, Fields};
use host::start::StartResult;
use std::io;
use std::io::Write;
use transfers::driver::Run;
use transfers::host_controller::{DataPhase, TransferExtras};
use transfers::wire::{Direction, SetupPacket};

// What a caller came with, and the bytes that the dispatcher has for it.
#[derive(Clone, Copy)]
pub(crate) struct Came {
    pub fields: Fields,
    pub requested: usize,
}

// The transfer under way, whose turn it is, who started last, and who waits.
#[derive(Clone, Copy)]
pub(crate) struct Turns {
    pub run: Option<Run>,
    pub turn: u8,
    pub last: u8,
    pub waiting: [bool; 8],
}

// Nobody waits or has the turn, and caller 7 started last.
pub(crate) const NOBODY: Turns = Turns {
    run: None,
    turn: 8,
    last: 7,
    waiting: [false; 8],
};

fn print_look<W: Write>(out: &mut W, answer: Option<u8>) -> io::Result<()> {
    match answer {
        Some(c) => write!(out, " turn {c}"),
        None => write!(out, " nobody"),
    }
}

// The spent count of c; 0 above 7.
fn spent(dispatcher: Dispatcher, c: u8) -> u32 {
    match dispatcher.callers.get(c as usize) {
        Some(caller) => caller.used,
        None => 0,
    }
}

// A start is charged; a refused one leaves the state as it was.
fn print_start<W: Write>(out: &mut W, before: HostController, r: StartResult) -> io::Result<()> {
    match r.answer {
        Ok(c) => write!(out, " started {c} spent {}", spent(r.next.dispatcher, c)),
        Err(why) => {
            let kept = if is_kept(before, r.next) {
                "kept"
            } else {
                "changed"
            };
            print_refusal(out, why)?;
            write!(out, " {kept}")
        }
    }
}

// What a look, `start_control`, `start_bulk_in` and `start_bulk_out` answer, each on this state.
pub(crate) fn state<W: Write>(
    out: &mut W,
    h: HostController,
    frame: u32,
    buf: &[u8],
) -> io::Result<()> {
    let mut pm = [0u8; 4096];
    let mut log = [0u32; 192];
    print_look(out, h.whose_turn(frame).answer)?;
    print_start(out, h, h.start_control(frame, buf, &pm, &mut log))?;
    print_start(out, h, h.start_bulk_in(frame, buf, &pm, &mut log))?;
    print_start(out, h, h.start_bulk_out(frame, buf, &mut pm, &mut log))?;
    writeln!(out)
}

// A control without data, to address 5 by packets of 8 bytes; its SETUP says nothing of bytes.
pub(crate) const CONTROL: ControlFields = ControlFields {
    address: 5,
    extras: TransferExtras::Normal,
    size: 8,
    setup: SetupPacket {
        bmRequestType: 0,
        bRequest: 9,
        wValue: 0,
        wIndex: 0,
        wLength: 0,
    },
    phase: DataPhase::None,
    length: 0,
};

// A bulk transfer of no bytes, to address 5 and endpoint 2 by packets of 8 bytes.
pub(crate) const BULK: BulkFields = BulkFields {
    address: 5,
    endpoint: 2,
    size: 8,
    kind: TransferType::FixedSize,
    toggle: false,
    length: 0,
};

// The dispatcher has the bytes of its SETUP for it.
pub(crate) fn control(x: ControlFields) -> Came {
    Came {
        fields: Fields::Control(x),
        requested: x.setup.wLength as usize,
    }
}

// The dispatcher has its buffer's bytes for it.
pub(crate) fn bulk(direction: Direction, x: BulkFields) -> Came {
    let fields = match direction {
        Direction::In => Fields::BulkIn(x),
        Direction::Out => Fields::BulkOut(x),
    };
    Came {
        fields,
        requested: x.length,
    }
}

// Of the eight callers these wait.
pub(crate) fn waiting(callers: &[u8]) -> [bool; 8] {
    [0, 1, 2, 3, 4, 5, 6, 7].map(|c| callers.contains(&c))
}

// All eight came with the same, and have spent nothing of shares as large as can be. The frame number last seen is 0.
pub(crate) fn host(turns: Turns, came: Came) -> HostController {
    let callers = turns.waiting.map(|pending| Caller {
        pending,
        requested: came.requested,
        quota: 0xFFFF_FFFF,
        used: 0,
    });
    HostController {
        driver: driver(turns.run),
        dispatcher: Dispatcher {
            callers,
            turn: turns.turn,
            last: turns.last,
            frame: 0,
        },
        submissions: [came.fields; 8],
    }
}
