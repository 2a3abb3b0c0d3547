// A step of a stage that moves packets IN.
ghost use Rattle.std.specs.Prelude.{◌≡◌, ℕ, ◌+◌, ◌≤◌, List, length};
ghost use Rattle.transfers.specs.Step.{status_count, in_control_done, in_done, in_complete, in_packets, in_received, in_rearm, in_move, in_step};
ghost use Rattle.transfers.specs.Acts.{Tells, Moves, Acts};

use crate::answers::Step;
use crate::arming::in_arm_two;
use crate::driver::{InStage, Kind, Request, Stage};
use crate::host_controller::{DataPhase, UsbError};
use crate::log::Log;
use crate::memory::PacketMemory;
use crate::progress::{
    Progress, end, enter_out, fail, first_pid, flip, nothing_armed, stage_length, wait,
};
use crate::registers::{ALL, RESULTS, SIE_STATUS};
use crate::retiring::in_retire;
use crate::sample::Found;
use crate::writes::{put_enable, put_quiets};
use cutting::depacketiser::InDepacketiser;
use cutting::packetiser::InPacketiser;

fn in_packets(x: Request, st: InStage) -> InPacketiser
    ensures { result ≡ in_packets x st }
{
    InPacketiser {
        slot: st.slot,
        pid: first_pid(x.kind),
        remain: st.toarm,
        size: x.size,
        zlp: st.zlp,
    }
}

fn in_received(st: InStage) -> InDepacketiser
    ensures { result ≡ in_received st }
{
    InDepacketiser {
        parity: st.retire,
        remain: st.remain,
        offset: st.offset,
    }
}

fn status_count(phase: DataPhase, length: usize) -> usize
    ensures { result ≡ status_count phase length }
{
    if matches!(phase, DataPhase::Out) {
        length
    } else {
        0
    }
}

fn in_control_done(
    x: Request,
    status: bool,
    phase: DataPhase,
    received: u16,
    pm: &mut PacketMemory,
    log: &mut Log<'_>,
) -> Progress
    requires { (log.old.used ≤ 40) }
    ensures { (b : List ℕ) → Moves (in_control_done status phase x received pm.old b) log.old result pm.new log.new }
{
    if status {
        return end(Ok(Step::Done(status_count(phase, x.length))), false, false);
    }
    enter_out(x, true, received, 0, &[], pm, log)
}

fn in_done(
    x: Request,
    status: bool,
    d: InDepacketiser,
    pm: &mut PacketMemory,
    log: &mut Log<'_>,
) -> Progress
    requires { (log.old.used ≤ 40) }
    ensures { (b : List ℕ) → Moves (in_done x.kind status x d pm.old b) log.old result pm.new log.new }
{
    match x.kind {
        Kind::Control(c) => in_control_done(x, status, c.phase, d.offset, pm, log),
        Kind::Bulk(b) => {
            let toggle = flip(b.toggle, d.parity);
            end(Ok(Step::Done(d.offset as usize)), toggle, toggle)
        }
    }
}

// The stage is complete: up to two slots are retired, then the transfer ends or goes into its status stage.
#[tactic(auto, unfolding(crate::specs::Step::in_complete))]
fn in_complete(
    x: Request,
    st: InStage,
    buffers: u32,
    buf: &mut [u8],
    pm: &mut PacketMemory,
    log: &mut Log<'_>,
) -> Progress
    requires { (st.offset + st.remain ≤ length buf.old) × (log.old.used ≤ 30) }
    ensures { Acts (in_complete x st buffers buf.old pm.old) log.old result pm.new buf.new log.new }
{
    let Some(g) = in_retire(buffers, in_received(st), st.inflight, buf, pm) else {
        return fail(x, st.retire, UsbError::ProtocolError);
    };
    log.put(SIE_STATUS, ALL, RESULTS);
    let Some(h) = in_retire(buffers, g.packets, g.inflight, buf, pm) else {
        return fail(x, g.packets.parity, UsbError::ProtocolError);
    };
    in_done(x, st.status, h.packets, pm, log)
}

#[tactic(auto, unfolding(crate::specs::Step::in_rearm))]
fn in_rearm(
    x: Request,
    st: InStage,
    d: InDepacketiser,
    inflight: u8,
    buffers: u32,
    log: &mut Log<'_>,
) -> Progress
    requires { log.old.used ≤ 40 }
    ensures { (m b : List ℕ) → Tells (in_rearm x st d inflight buffers m b) log.old result log.new }
{
    let g = in_arm_two(buffers, in_packets(x, st), inflight, log);
    let n = stage_length(x, st.status);
    put_enable(log, x.size, n);
    let p = g.packets;
    let stage = InStage {
        slot: p.slot,
        toarm: p.remain,
        zlp: p.zlp,
        retire: d.parity,
        remain: d.remain,
        offset: d.offset,
        inflight: g.inflight,
        ..st
    };
    wait(x, Stage::In(stage), true, nothing_armed())
}

// The stage goes on: up to two slots are retired, and up to two armed.
#[tactic(auto, unfolding(crate::specs::Step::in_move))]
fn in_move(
    x: Request,
    st: InStage,
    buffers: u32,
    buf: &mut [u8],
    pm: &mut PacketMemory,
    log: &mut Log<'_>,
) -> Progress
    requires { (st.offset + st.remain ≤ length buf.old) × (log.old.used ≤ 30) }
    ensures { Acts (in_move x st buffers buf.old pm.old) log.old result pm.new buf.new log.new }
{
    let Some(g) = in_retire(buffers, in_received(st), st.inflight, buf, pm) else {
        return fail(x, st.retire, UsbError::ProtocolError);
    };
    let Some(h) = in_retire(buffers, g.packets, g.inflight, buf, pm) else {
        return fail(x, g.packets.parity, UsbError::ProtocolError);
    };
    in_rearm(x, st, h.packets, h.inflight, buffers, log)
}

#[tactic(auto, unfolding(crate::specs::Step::in_step))]
#[inline(always)]
pub(crate) fn in_step(
    found: Found,
    x: Request,
    st: InStage,
    buffers: u32,
    buf: &mut [u8],
    pm: &mut PacketMemory,
    log: &mut Log<'_>,
) -> Progress
    requires { (st.offset + st.remain ≤ length buf.old) × (log.old.used ≤ 20) }
    ensures { Acts (in_step found x st buffers buf.old pm.old) log.old result pm.new buf.new log.new }
{
    put_quiets(log);
    match found {
        Found::Complete => in_complete(x, st, buffers, buf, pm, log),
        Found::Failed(e) => fail(x, st.retire, e),
        Found::Neither => in_move(x, st, buffers, buf, pm, log),
    }
}
