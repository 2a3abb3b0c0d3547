// A step of a stage that moves packets OUT. It differs from IN's in what is retired, armed and counted, not in a type alone: one function over both would be no plainer.
ghost use Rattle.std.specs.Prelude.{◌≡◌, ℕ, ◌+◌, ◌≤◌, List, length};
ghost use Rattle.transfers.specs.Step.{out_packets, out_control_done, out_done, out_complete, out_move, out_step};
ghost use Rattle.transfers.specs.Acts.{Tells, Moves};

use crate::answers::Step;
use crate::arming::out_arm_two;
use crate::driver::{Kind, OutStage, Request, Stage};
use crate::log::Log;
use crate::memory::PacketMemory;
use crate::progress::{
    Progress, end, enter_in, fail, first_pid, flip, outs_armed, stage_length, target_of, wait,
};
use crate::registers::{ALL, RESULTS, SIE_STATUS};
use crate::retiring::out_retire;
use crate::sample::Found;
use crate::writes::{put_enable, put_quiets};
use cutting::packetiser::{OutCounters, OutPacketiser};

fn out_packets(x: Request, st: OutStage) -> OutCounters
    ensures { result ≡ out_packets x st }
{
    OutCounters {
        slot: st.slot,
        pid: first_pid(x.kind),
        remain: st.remain,
        offset: st.offset,
        size: x.size,
        zlp: st.zlp,
    }
}

fn out_control_done(x: Request, status: bool, received: u16, log: &mut Log<'_>) -> Progress
    requires { log.old.used ≤ 40 }
    ensures { (m buf : List ℕ) → Tells (out_control_done status x received m buf) log.old result log.new }
{
    if status {
        return end(Ok(Step::Done(received as usize)), false, false);
    }
    enter_in(x, true, 0, log)
}

fn out_done(x: Request, st: OutStage, parity: bool, log: &mut Log<'_>) -> Progress
    requires { log.old.used ≤ 40 }
    ensures { (m buf : List ℕ) → Tells (out_done x.kind x st parity m buf) log.old result log.new }
{
    match x.kind {
        Kind::Control(_) => out_control_done(x, st.status, st.received, log),
        Kind::Bulk(b) => {
            let toggle = flip(b.toggle, parity);
            end(Ok(Step::Done(x.length)), toggle, toggle)
        }
    }
}

// The stage is complete: up to two slots are retired, then the transfer ends or goes into its status stage.
#[tactic(auto, unfolding(crate::specs::Step::out_complete))]
fn out_complete(x: Request, st: OutStage, buffers: u32, log: &mut Log<'_>) -> Progress
    requires { log.old.used ≤ 30 }
    ensures { (m buf : List ℕ) → Tells (out_complete x st buffers m buf) log.old result log.new }
{
    let g = out_retire(buffers, st.retire, st.inflight);
    log.put(SIE_STATUS, ALL, RESULTS);
    let h = out_retire(buffers, g.parity, g.inflight);
    out_done(x, st, h.parity, log)
}

// The stage goes on: up to two slots are retired, and up to two armed.
#[tactic(auto, unfolding(crate::specs::Step::out_move))]
fn out_move(
    x: Request,
    st: OutStage,
    buffers: u32,
    buf: &[u8],
    pm: &mut PacketMemory,
    log: &mut Log<'_>,
) -> Progress
    requires { (st.offset + st.remain ≤ length buf.now) × (log.old.used ≤ 30) }
    ensures { Moves (out_move x st buffers buf.now pm.old) log.old result pm.new log.new }
{
    let r = out_retire(buffers, st.retire, st.inflight);
    let r = out_retire(buffers, r.parity, r.inflight);
    let packets = OutPacketiser {
        counters: out_packets(x, st),
        buf,
    };
    let g = out_arm_two(buffers, packets, r.inflight, pm, log);
    let n = stage_length(x, st.status);
    put_enable(log, x.size, n);
    let p = g.packets;
    let stage = OutStage {
        slot: p.slot,
        remain: p.remain,
        offset: p.offset,
        zlp: p.zlp,
        retire: r.parity,
        inflight: g.inflight,
        ..st
    };
    let armed = outs_armed(target_of(x), g.first, g.second);
    wait(x, Stage::Out(stage), true, armed)
}

#[tactic(auto, unfolding(crate::specs::Step::out_step))]
#[inline(always)]
pub(crate) fn out_step(
    found: Found,
    x: Request,
    st: OutStage,
    buffers: u32,
    buf: &[u8],
    pm: &mut PacketMemory,
    log: &mut Log<'_>,
) -> Progress
    requires { (st.offset + st.remain ≤ length buf.now) × (log.old.used ≤ 20) }
    ensures { Moves (out_step found x st buffers buf.now pm.old) log.old result pm.new log.new }
{
    put_quiets(log);
    match found {
        Found::Complete => out_complete(x, st, buffers, log),
        Found::Failed(e) => fail(x, st.retire, e),
        Found::Neither => out_move(x, st, buffers, buf, pm, log),
    }
}
