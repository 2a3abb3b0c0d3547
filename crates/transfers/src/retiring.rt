// Retiring: `retire` of the depacketisers.
ghost use Rattle.std.specs.Prelude.{◌≡◌, ◌+◌, ◌<◌, ◌≤◌, length, MatchOption};
ghost use Rattle.transfers.specs.Retiring.{out_retire_one, in_retire_one};
ghost use Rattle.transfers.specs.Arms.{TooLong, RetiresIn};

use crate::memory::{PacketMemory, take_slot};
use crate::sample::{slot_full, slot_length};
use cutting::depacketiser::InDepacketiser;

#[derive(Clone, Copy)]
pub(crate) struct InRetired {
    pub packets: InDepacketiser,
    pub inflight: u8,
}

// OUT has no bytes to take and no length to look at, so it shares no function with IN.
#[derive(Clone, Copy)]
pub(crate) struct OutRetired {
    pub parity: bool,
    pub inflight: u8,
}

// None where the slot is longer than 64 bytes: that packet isn't copied.
#[tactic(auto, unfolding(crate::specs::Retiring::in_retire_one))]
pub(crate) fn in_retire(
    buffers: u32,
    packets: InDepacketiser,
    inflight: u8,
    buf: &mut [u8],
    pm: &PacketMemory,
) -> Option<InRetired>
    requires { (packets.offset + packets.remain ≤ length buf.old) }
    ensures { let g = in_retire_one buffers packets inflight buf.old pm.now in MatchOption result (TooLong packets g buf.new) (RetiresIn g buf.new) }
{
    if inflight == 0 || !slot_full(buffers, packets.parity) {
        return Some(InRetired { packets, inflight });
    }
    let n = slot_length(buffers, packets.parity);
    if 64 < n {
        return None;
    }
    let r = packets.retire(n);
    take_slot(
        buf,
        packets.offset as usize,
        pm,
        packets.parity,
        r.count as usize,
    );
    Some(InRetired {
        packets: r.rest,
        inflight: inflight - 1,
    })
}

#[tactic(auto, unfolding(crate::specs::Retiring::out_retire_one))]
pub(crate) fn out_retire(buffers: u32, parity: bool, inflight: u8) -> OutRetired
    ensures { (result.parity ≡ (out_retire_one buffers parity inflight).parity) × (result.inflight ≡ (out_retire_one buffers parity inflight).inflight) }
{
    if inflight == 0 || slot_full(buffers, parity) {
        return OutRetired { parity, inflight };
    }
    OutRetired {
        parity: !parity,
        inflight: inflight - 1,
    }
}
