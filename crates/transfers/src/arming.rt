// Arming: `prepare` of the packetisers, once and twice.
ghost use Rattle.std.specs.Prelude.{◌≡◌, ◌+◌, ◌<◌, ◌≤◌, length};
ghost use Rattle.transfers.specs.Arming.{may_arm, in_arm, in_arm_two, out_arm, out_arm_two};
ghost use Rattle.transfers.specs.Arms.{ArmsIn, ArmsOut, ArmsOutTwo};

use crate::log::Log;
use crate::memory::{PacketMemory, fill_slot};
use crate::sample::slot_available;
use crate::writes::put_arm;
use cutting::packetiser::{Arm, InPacketiser, OutCounters, OutPacketiser, next_in};

#[derive(Clone, Copy)]
pub(crate) struct InArmed {
    pub packets: InPacketiser,
    pub inflight: u8,
}

#[derive(Clone, Copy)]
pub(crate) struct OutArmed {
    pub packets: OutCounters,
    pub inflight: u8,
    pub arm: Option<Arm>,
}

#[derive(Clone, Copy)]
pub(crate) struct OutArmedTwo {
    pub packets: OutCounters,
    pub inflight: u8,
    pub first: Option<Arm>,
    pub second: Option<Arm>,
}

#[inline(always)]
fn may_arm(buffers: u32, inflight: u8, slot: bool) -> bool
    ensures { result ≡ may_arm buffers inflight slot }
{
    inflight < 2 && !slot_available(buffers, slot)
}

// IN stays apart from OUT's `prepare`, which copies bytes and hands out the packet: one function over both would be no plainer, as a trait would have to bring the copy, the FULL mark and what is handed out.
#[tactic(auto, unfolding(crate::specs::Arming::in_arm))]
#[inline(always)]
fn in_arm(buffers: u32, packets: InPacketiser, inflight: u8, log: &mut Log<'_>) -> InArmed
    requires { log.old.used ≤ 61 }
    ensures { ArmsIn (in_arm buffers packets inflight) log.old result log.new }
{
    if !may_arm(buffers, inflight, packets.slot) {
        return InArmed { packets, inflight };
    }
    let next = next_in(packets);
    match next.arm {
        None => InArmed {
            packets: next.rest,
            inflight,
        },
        Some(arm) => {
            put_arm(log, false, arm);
            InArmed {
                packets: next.rest,
                inflight: inflight + 1,
            }
        }
    }
}

#[tactic(auto, unfolding(crate::specs::Arming::in_arm_two))]
#[inline(always)]
pub(crate) fn in_arm_two(
    buffers: u32,
    packets: InPacketiser,
    inflight: u8,
    log: &mut Log<'_>,
) -> InArmed
    requires { log.old.used ≤ 58 }
    ensures { ArmsIn (in_arm_two buffers packets inflight) log.old result log.new }
{
    let g = in_arm(buffers, packets, inflight, log);
    in_arm(buffers, g.packets, g.inflight, log)
}

// `prepare` as in the Rust: the packetiser holds the caller's bytes beside its counters.
#[tactic(auto, unfolding(crate::specs::Arming::out_arm))]
#[inline(always)]
fn prepare(
    buffers: u32,
    p: OutPacketiser<'_>,
    inflight: u8,
    pm: &mut PacketMemory,
    log: &mut Log<'_>,
) -> OutArmed
    requires { (p.counters.offset + p.counters.remain ≤ length p.buf.now) × (log.old.used ≤ 61) }
    ensures { ArmsOut (out_arm buffers p.entry.counters inflight p.entry.buf.now pm.old) log.old result pm.new log.new }
{
    let packets = p.counters;
    if !may_arm(buffers, inflight, packets.slot) {
        return OutArmed {
            packets,
            inflight,
            arm: None,
        };
    }
    let next = packets.next_packet();
    match next.arm {
        None => OutArmed {
            packets: next.rest,
            inflight,
            arm: None,
        },
        Some(arm) => {
            let from = packets.offset as usize;
            fill_slot(pm, arm.slot, &p.buf[from..], arm.length as usize);
            put_arm(log, true, arm);
            OutArmed {
                packets: next.rest,
                inflight: inflight + 1,
                arm: Some(arm),
            }
        }
    }
}

#[tactic(auto, unfolding(crate::specs::Arming::out_arm_two))]
#[inline(always)]
pub(crate) fn out_arm_two(
    buffers: u32,
    p: OutPacketiser<'_>,
    inflight: u8,
    pm: &mut PacketMemory,
    log: &mut Log<'_>,
) -> OutArmedTwo
    requires { (p.counters.offset + p.counters.remain ≤ length p.buf.now) × (log.old.used ≤ 58) }
    ensures { ArmsOutTwo (out_arm_two buffers p.entry.counters inflight p.entry.buf.now pm.old) log.old result pm.new log.new }
{
    let g = prepare(buffers, p, inflight, pm, log);
    let rest = OutPacketiser {
        counters: g.packets,
        buf: p.buf,
    };
    let h = prepare(buffers, rest, g.inflight, pm, log);
    OutArmedTwo {
        packets: h.packets,
        inflight: h.inflight,
        first: g.arm,
        second: h.arm,
    }
}
