// Begin and cancel of a transfer.
ghost use Rattle.std.specs.Prelude.{◌≡◌, ◌+◌, ◌<◌, ◌≤◌, length};
ghost use Rattle.transfers.specs.Memory.{lent_fits};
ghost use Rattle.transfers.specs.State.{address_good, size_good};
ghost use Rattle.transfers.specs.Calls.{is_idle, either_serves, stage_parity, cancel_of, fields_refusal, begin_refusal, begin_control_of, begin_bulk_in_of, begin_bulk_out_of};
ghost use Rattle.transfers.specs.Begins.{cancels, refusing, Begins};

use crate::answers::{Armed, ArmedSetup};
use crate::control::Begun;
use crate::driver::{Bulk, Control, Kind, Request, Run, Stage};
use crate::host_controller::{DataPhase, TransferExtras, UsbError};
use crate::log::Log;
use crate::memory::lent_fits;
use crate::progress::{
    nothing_armed, outs_armed, start_in, start_out, target_of, toggle_in, toggle_out,
};
use crate::refusal::Refusal;
use crate::state::{address_good, endpoint_good, size_good};
use crate::step::may_step;
use crate::wire::{Direction, SetupPacket};
use crate::writes::put_setup;
use cutting::transfer_type::TransferType;

// `toggle` is what desk rule 1 hands out, `moved` what rule 2 does: the definition `Cancelling` has both.
#[derive(Clone, Copy)]
pub(crate) struct Cancelled {
    pub next: Option<Run>,
    pub answer: Result<(), Refusal>,
    pub toggle: bool,
    pub moved: bool,
}

fn either_serves(run: Run) -> bool
    ensures { result ≡ either_serves run }
{
    may_step(true, run) || may_step(false, run)
}

// The parity of the packets that a stage has retired.
fn stage_parity(stage: Stage) -> bool
    ensures { result ≡ stage_parity stage }
{
    match stage {
        Stage::Setup => false,
        Stage::In(st) => st.retire,
        Stage::Out(st) => st.retire,
    }
}

#[tactic(auto, unfolding(crate::specs::Calls::cancel_of))]
pub(crate) fn cancel(t: Option<Run>) -> Cancelled
    ensures { result ≡ cancels (cancel_of t) }
{
    let Some(run) = t else {
        return Cancelled {
            next: t,
            answer: Err(Refusal::State),
            toggle: false,
            moved: false,
        };
    };
    let kind = run.request.kind;
    let toggle = toggle_in(kind);
    if either_serves(run) {
        Cancelled {
            next: None,
            answer: Ok(()),
            toggle,
            moved: toggle_out(kind, stage_parity(run.stage)),
        }
    } else {
        Cancelled {
            next: t,
            answer: Err(Refusal::State),
            toggle,
            moved: toggle,
        }
    }
}

pub fn is_idle(t: Option<Run>) -> bool
    ensures { result ≡ is_idle t }
{
    t.is_none()
}

// Whether begin refuses these fields; an endpoint or length that isn't looked at is good.
pub fn fields_refusal(address: u8, endpoint: bool, size: u16, length: bool) -> Result<(), Refusal>
    ensures { result ≡ fields_refusal (address_good address) endpoint (size_good size) length }
{
    if !address_good(address) {
        return Err(Refusal::Address);
    }
    if !endpoint {
        return Err(Refusal::Usb(UsbError::NoSuchEndpoint));
    }
    if !size_good(size) {
        return Err(Refusal::PacketSize);
    }
    if !length {
        return Err(Refusal::BufferSize);
    }
    Ok(())
}

fn begin_refusal(
    t: Option<Run>,
    fields: Result<(), Refusal>,
    pm: &[u8],
    log: &[u32],
) -> Result<(), Refusal>
    ensures { result ≡ begin_refusal (lent_fits pm.now log.now) (is_idle t) fields }
{
    if !lent_fits(pm, log) {
        return Err(Refusal::LentMemory);
    }
    if !is_idle(t) {
        return Err(Refusal::Usb(UsbError::AllPipesInUse));
    }
    fields
}

fn refuse_begin(t: Option<Run>, e: Refusal) -> Begun<Option<Run>>
    ensures { result ≡ refusing t e }
{
    Begun {
        next: t,
        answer: Err(e),
        armed: nothing_armed(),
        writes: 0,
    }
}

#[tactic(auto, unfolding(crate::specs::Calls::begin_control_of))]
pub(crate) fn begin_control(
    t: Option<Run>,
    address: u8,
    extras: TransferExtras,
    size: u8,
    setup: SetupPacket,
    phase: DataPhase,
    buf: &[u8],
    pm: &[u8],
    log: &mut [u32],
) -> Begun<Option<Run>>
    ensures { Begins (begin_control_of t address extras size setup phase buf.now pm.now log.old) log.old result pm.now log.new }
{
    let fields = fields_refusal(address, true, size as u16, true);
    if let Err(e) = begin_refusal(t, fields, pm, log) {
        return refuse_begin(t, e);
    }
    let mut log = Log {
        words: log,
        used: 0,
    };
    put_setup(&mut log, address, extras, setup);
    Begun {
        next: Some(Run {
            request: Request {
                address,
                size,
                kind: Kind::Control(Control {
                    phase,
                    wLength: setup.wLength,
                }),
                length: buf.len(),
            },
            stage: Stage::Setup,
        }),
        answer: Ok(()),
        armed: Armed {
            setup: Some(ArmedSetup { address, setup }),
            first: None,
            second: None,
        },
        writes: log.used,
    }
}

// IN and OUT start stages of other types, and OUT writes packet memory: one function over both would be no plainer. What they share are `fields_refusal`, `begin_refusal` and `refuse_begin`.
#[tactic(auto, unfolding(crate::specs::Calls::begin_bulk_in_of))]
pub(crate) fn begin_bulk_in(
    t: Option<Run>,
    address: u8,
    endpoint: u8,
    size: u16,
    kind: TransferType,
    toggle: bool,
    buf: &[u8],
    pm: &[u8],
    log: &mut [u32],
) -> Begun<Option<Run>>
    ensures { Begins (begin_bulk_in_of t address endpoint size kind toggle buf.now pm.now log.old) log.old result pm.now log.new }
{
    let fields = fields_refusal(address, endpoint_good(endpoint), size, buf.len() <= 0xFFFF);
    if let Err(e) = begin_refusal(t, fields, pm, log) {
        return refuse_begin(t, e);
    }
    let x = Request {
        address,
        size: size as u8,
        kind: Kind::Bulk(Bulk {
            direction: Direction::In,
            endpoint,
            toggle,
        }),
        length: buf.len(),
    };
    let mut log = Log {
        words: log,
        used: 0,
    };
    let stage = start_in(target_of(x), kind, false, buf.len() as u16, &mut log);
    Begun {
        next: Some(Run {
            request: x,
            stage: Stage::In(stage),
        }),
        answer: Ok(()),
        armed: nothing_armed(),
        writes: log.used,
    }
}

#[tactic(auto, unfolding(crate::specs::Calls::begin_bulk_out_of))]
pub(crate) fn begin_bulk_out(
    t: Option<Run>,
    address: u8,
    endpoint: u8,
    size: u16,
    kind: TransferType,
    toggle: bool,
    buf: &[u8],
    pm: &mut [u8],
    log: &mut [u32],
) -> Begun<Option<Run>>
    ensures { Begins (begin_bulk_out_of t address endpoint size kind toggle buf.now pm.old log.old) log.old result pm.new log.new }
{
    let fields = fields_refusal(address, endpoint_good(endpoint), size, buf.len() <= 0xFFFF);
    if let Err(e) = begin_refusal(t, fields, pm, log) {
        return refuse_begin(t, e);
    }
    let x = Request {
        address,
        size: size as u8,
        kind: Kind::Bulk(Bulk {
            direction: Direction::Out,
            endpoint,
            toggle,
        }),
        length: buf.len(),
    };
    let target = target_of(x);
    let mut log = Log {
        words: log,
        used: 0,
    };
    let n = buf.len() as u16;
    let whole = pm.as_mut_array().unwrap();
    let s = start_out(target, kind, false, 0, n, buf, whole, &mut log);
    Begun {
        next: Some(Run {
            request: x,
            stage: Stage::Out(s.stage),
        }),
        answer: Ok(()),
        armed: outs_armed(target, s.first, s.second),
        writes: log.used,
    }
}
