// How a step ends or goes on, and how a stage begins.
ghost use Rattle.std.specs.Prelude.{◌≡◌, ℕ, ◌≤◌, List, [], length};
ghost use Rattle.transfers.specs.Answers.{nothing_armed, outs_armed};
ghost use Rattle.transfers.specs.State.{first_pid, target_of, stage_length};
ghost use Rattle.transfers.specs.Outcome.{toggle_in, flipped, toggle_out, ended, failed, waits, start_in, start_out, enters_in, enters_out};
ghost use Rattle.transfers.specs.Acts.{told, Tells, Moves};
ghost use Rattle.transfers.specs.Starts.{StartsIn, StartsOut};

use crate::answers::{Armed, Step, out_of};
use crate::arming::{in_arm_two, out_arm_two};
use crate::driver::{InStage, Kind, OutStage, Request, Run, Stage};
use crate::host_controller::UsbError;
use crate::log::Log;
use crate::memory::PacketMemory;
use crate::refusal::Refusal;
use crate::wire::Direction;
use crate::writes::{Target, put_enable, put_go, put_head};
use cutting::packetiser::{Arm, InPacketiser, OutCounters, OutPacketiser};
use cutting::transfer_type::TransferType;

// `toggle` is what desk rule 1 hands out, `moved` what rule 2 does.
#[derive(Clone, Copy)]
pub struct Progress {
    pub next: Option<Run>,
    pub answer: Result<Step, Refusal>,
    pub toggle: bool,
    pub moved: bool,
    pub armed: Armed,
}

#[derive(Clone, Copy)]
pub(crate) struct OutStarted {
    pub stage: OutStage,
    pub first: Option<Arm>,
    pub second: Option<Arm>,
}

pub(crate) fn nothing_armed() -> Armed
    ensures { result ≡ nothing_armed }
{
    Armed {
        setup: None,
        first: None,
        second: None,
    }
}

pub(crate) fn toggle_in(kind: Kind) -> bool
    ensures { result ≡ toggle_in kind }
{
    match kind {
        Kind::Control(_) => false,
        Kind::Bulk(b) => b.toggle,
    }
}

pub(crate) fn first_pid(kind: Kind) -> bool
    ensures { result ≡ first_pid kind }
{
    match kind {
        Kind::Control(_) => true,
        Kind::Bulk(b) => b.toggle,
    }
}

pub(crate) fn flip(toggle: bool, parity: bool) -> bool
    ensures { result ≡ flipped toggle parity }
{
    if parity { !toggle } else { toggle }
}

// A bulk transfer's toggle, flipped by the parity of the packets retired.
pub(crate) fn toggle_out(kind: Kind, parity: bool) -> bool
    ensures { result ≡ toggle_out kind parity }
{
    match kind {
        Kind::Control(_) => false,
        Kind::Bulk(b) => flip(b.toggle, parity),
    }
}

// The length of a stage.
pub(crate) fn stage_length(x: Request, status: bool) -> usize
    ensures { result ≡ stage_length x status }
{
    if status {
        return 0;
    }
    match x.kind {
        Kind::Control(c) => c.wLength as usize,
        Kind::Bulk(_) => x.length,
    }
}

pub(crate) fn target_of(x: Request) -> Target
    ensures { result ≡ target_of x }
{
    match x.kind {
        Kind::Control(_) => Target {
            address: x.address,
            endpoint: 0,
            size: x.size,
            pid: true,
        },
        Kind::Bulk(b) => Target {
            address: x.address,
            endpoint: b.endpoint,
            size: x.size,
            pid: b.toggle,
        },
    }
}

// Every end of a transfer: the control pipe is free again.
pub(crate) fn end(answer: Result<Step, Refusal>, toggle: bool, moved: bool) -> Progress
    ensures { result ≡ told (ended answer toggle moved [] []) }
{
    Progress {
        next: None,
        answer,
        toggle,
        moved,
        armed: nothing_armed(),
    }
}

// The end with an error: `parity` is that of the packets retired before it.
pub(crate) fn fail(x: Request, parity: bool, e: UsbError) -> Progress
    ensures { result ≡ told (failed x parity e [] []) }
{
    end(
        Err(Refusal::Usb(e)),
        toggle_in(x.kind),
        toggle_out(x.kind, parity),
    )
}

pub(crate) fn wait(x: Request, stage: Stage, again: bool, armed: Armed) -> Progress
    ensures { result ≡ told (waits x stage again armed [] [] []) }
{
    let toggle = toggle_in(x.kind);
    Progress {
        next: Some(Run { request: x, stage }),
        answer: Ok(Step::Waiting(again)),
        toggle,
        moved: toggle,
        armed,
    }
}

// `control_transfer_inner` up to its first poll, IN. The stage's type, what is armed and what is sent differ from OUT's: one function over both would be no plainer.
#[tactic(auto, unfolding(crate::specs::Outcome::start_in))]
pub(crate) fn start_in(
    t: Target,
    kind: TransferType,
    status: bool,
    n: u16,
    log: &mut Log<'_>,
) -> InStage
    requires { log.old.used ≤ 40 }
    ensures { StartsIn (start_in t kind status n) log.old result log.new }
{
    put_head(log, t, n as usize);
    let c = InPacketiser::new(kind, t.size, t.pid, n);
    let g = in_arm_two(0, c, 0, log);
    put_enable(log, t.size, n as usize);
    put_go(log, Direction::In);
    let p = g.packets;
    InStage {
        status,
        slot: p.slot,
        toarm: p.remain,
        zlp: p.zlp,
        retire: false,
        remain: n,
        offset: 0,
        inflight: g.inflight,
    }
}

// The same, OUT.
#[tactic(auto, unfolding(crate::specs::Outcome::start_out))]
pub(crate) fn start_out(
    t: Target,
    kind: TransferType,
    status: bool,
    received: u16,
    n: u16,
    buf: &[u8],
    pm: &mut PacketMemory,
    log: &mut Log<'_>,
) -> OutStarted
    requires { (n ≤ length buf.now) × (log.old.used ≤ 40) }
    ensures { StartsOut (start_out t kind status received n buf.now pm.old) log.old result pm.new log.new }
{
    put_head(log, t, n as usize);
    let packets = OutPacketiser {
        counters: OutCounters::new(kind, t.size, t.pid, n),
        buf,
    };
    let g = out_arm_two(0, packets, 0, pm, log);
    put_enable(log, t.size, n as usize);
    put_go(log, Direction::Out);
    let p = g.packets;
    OutStarted {
        stage: OutStage {
            status,
            slot: p.slot,
            remain: p.remain,
            offset: p.offset,
            zlp: p.zlp,
            retire: false,
            inflight: g.inflight,
            received,
        },
        first: g.first,
        second: g.second,
    }
}

// A control transfer goes into its data or status stage, IN or OUT: two functions, as `start_in` and `start_out` are.
pub(crate) fn enter_in(x: Request, status: bool, n: u16, log: &mut Log<'_>) -> Progress
    requires { log.old.used ≤ 40 }
    ensures { (m b : List ℕ) → Tells (enters_in x status n m b) log.old result log.new }
{
    let stage = start_in(target_of(x), TransferType::FixedSize, status, n, log);
    wait(x, Stage::In(stage), true, nothing_armed())
}

pub(crate) fn enter_out(
    x: Request,
    status: bool,
    received: u16,
    n: u16,
    buf: &[u8],
    pm: &mut PacketMemory,
    log: &mut Log<'_>,
) -> Progress
    requires { (n ≤ length buf.now) × (log.old.used ≤ 40) }
    ensures { (b : List ℕ) → Moves (enters_out x status received n buf.now pm.old b) log.old result pm.new log.new }
{
    let t = target_of(x);
    let s = start_out(
        t,
        TransferType::FixedSize,
        status,
        received,
        n,
        buf,
        pm,
        log,
    );
    let armed = outs_armed(t, s.first, s.second);
    wait(x, Stage::Out(s.stage), true, armed)
}

pub(crate) fn outs_armed(t: Target, first: Option<Arm>, second: Option<Arm>) -> Armed
    ensures { result ≡ outs_armed t.address t.endpoint first second }
{
    Armed {
        setup: None,
        first: out_of(t.address, t.endpoint, first),
        second: out_of(t.address, t.endpoint, second),
    }
}
