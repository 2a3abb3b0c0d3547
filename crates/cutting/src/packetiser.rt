// `OutPacketiser` and `InPacketiser`, their counters and their next packet.
ghost use Rattle.std.specs.Prelude.{◌≡◌};
ghost use Rattle.cutting.specs.Counters.{zlp_of, next_of, pid_of, owed_after, out_start, out_next, in_start_of, in_next};

use crate::transfer_type::TransferType;
use std::cmp::Ordering;

// What a slot is armed with: slot 0 or 1, DATA0 or DATA1, the mark of the last packet, and the length.
#[derive(Clone, Copy)]
pub struct Arm {
    pub slot: bool,
    pub pid: bool,
    pub last: bool,
    pub length: u8,
}

// `next_prep`, `initial_pid`, `remain`, `offset`, `packet_size` and `need_zero_size_packet` of the Rust.
#[derive(Clone, Copy)]
pub struct OutCounters {
    pub slot: bool,
    pub pid: bool,
    pub remain: u16,
    pub offset: u16,
    pub size: u8,
    pub zlp: bool,
}

// The caller's bytes beside the counters.
#[derive(Clone, Copy)]
pub struct OutPacketiser<'a> {
    pub counters: OutCounters,
    pub buf: &'a [u8],
}

// A packet, if there is one, and the counters after it.
#[derive(Clone, Copy)]
pub struct Next<C> {
    pub arm: Option<Arm>,
    pub rest: C,
}

// `next_prep`, `initial_toggle`, `remain`, `packet_size` and `need_zero_size_packet` of the Rust. It has no offset: the definition `in_next` names its fields.
#[derive(Clone, Copy)]
pub struct InPacketiser {
    pub slot: bool,
    pub pid: bool,
    pub remain: u16,
    pub size: u8,
    pub zlp: bool,
}

// Whether an empty packet is owed at the start.
fn need_zero_size_packet(kind: TransferType, size: u8, length: u16) -> bool
    ensures { result ≡ zlp_of kind size length }
{
    match kind {
        TransferType::FixedSize => length == 0,
        TransferType::VariableSize => {
            if size == 0 {
                return length == 0;
            }
            length % (size as u16) == 0
        }
    }
}

// `next_packet`'s answer in the Rust: a length and the mark of the last packet. A packet size outside 1 to 64 gives none.
fn next_length(remain: u16, size: u8, zlp: bool) -> Option<(u8, bool)>
    ensures { result ≡ next_of remain size zlp }
{
    if size == 0 || 64 < size {
        return None;
    }
    if remain == 0 {
        return zlp.then_some((0, true));
    }
    match remain.cmp(&(size as u16)) {
        Ordering::Less => Some((remain as u8, true)),
        Ordering::Greater => Some((size, false)),
        Ordering::Equal => Some((size, !zlp)),
    }
}

// Slot 0 has the first PID, slot 1 the other.
fn slot_pid(pid: bool, slot: bool) -> bool
    ensures { result ≡ pid_of pid slot }
{
    if slot { !pid } else { pid }
}

// The empty packet is no longer owed once it is the one that is sent.
fn still_owed(remain: u16, zlp: bool) -> bool
    ensures { result ≡ owed_after remain zlp }
{
    remain != 0 && zlp
}

impl OutCounters {
    pub fn new(kind: TransferType, size: u8, pid: bool, length: u16) -> OutCounters
        ensures { result ≡ out_start kind size pid length }
    {
        OutCounters {
            slot: false,
            pid,
            remain: length,
            offset: 0,
            size,
            zlp: need_zero_size_packet(kind, size, length),
        }
    }

    // The next packet and the counters after it.
    // Counters that no start makes, with offset and rest above 65,535, give no packet.
    #[tactic(auto, unfolding(crate::specs::Counters::out_next))]
    pub fn next_packet(self) -> Next<OutCounters>
        ensures { result ≡ out_next self }
    {
        if 0xFFFF - self.offset < self.remain {
            return Next {
                arm: None,
                rest: self,
            };
        }
        match next_length(self.remain, self.size, self.zlp) {
            None => Next {
                arm: None,
                rest: self,
            },
            Some((n, last)) => Next {
                arm: Some(Arm {
                    slot: self.slot,
                    pid: slot_pid(self.pid, self.slot),
                    last,
                    length: n,
                }),
                rest: OutCounters {
                    slot: !self.slot,
                    remain: self.remain - n as u16,
                    offset: self.offset + n as u16,
                    zlp: still_owed(self.remain, self.zlp),
                    ..self
                },
            },
        }
    }
}

impl InPacketiser {
    pub fn new(kind: TransferType, size: u8, pid: bool, length: u16) -> InPacketiser
        ensures { result ≡ in_start_of kind size pid length }
    {
        InPacketiser {
            slot: false,
            pid,
            remain: length,
            size,
            zlp: need_zero_size_packet(kind, size, length),
        }
    }

    // The next packet and the counters after it, by value. A slot is armed with the packet size, however few bytes are left.
    #[tactic(auto, unfolding(crate::specs::Counters::in_next))]
    fn packet(self) -> Next<InPacketiser>
        ensures { result ≡ in_next self }
    {
        match next_length(self.remain, self.size, self.zlp) {
            None => Next {
                arm: None,
                rest: self,
            },
            Some((n, last)) => Next {
                arm: Some(Arm {
                    slot: self.slot,
                    pid: slot_pid(self.pid, self.slot),
                    last,
                    length: self.size,
                }),
                rest: InPacketiser {
                    slot: !self.slot,
                    remain: self.remain - n as u16,
                    zlp: still_owed(self.remain, self.zlp),
                    ..self
                },
            },
        }
    }

    // The counters are lent, as in the Rust: they change to those after the packet.
    pub fn next_packet(&mut self) -> Option<Arm>
        ensures { (result ≡ (in_next self.old).arm) × (self.new ≡ (in_next self.old).rest) }
    {
        let next = self.packet();
        *self = next.rest;
        next.arm
    }
}

// For a caller that has the counters by value: they are lent to `next_packet`, and come back beside its answer.
pub fn next_in(c: InPacketiser) -> Next<InPacketiser>
    ensures { result ≡ in_next c }
{
    let mut rest = c;
    let arm = rest.next_packet();
    Next { arm, rest }
}
