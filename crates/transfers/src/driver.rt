// The driver's state. Each call takes it by value and hands the next one back.
use crate::host_controller::{DataPhase, DeviceStatus};
use crate::wire::Direction;
use pool::bitset::BitSet;

// What becomes of a bulk transfer's toggle when it fails or is cancelled: it stays as it came in (rule 1), or has flipped once per packet retired (rule 2).
#[derive(Clone, Copy)]
pub enum DeskRule {
    One,
    Two,
}

// `transfer` is the one under way on the control pipe, if any.
// `entries` is how many entries of the wire record the transfer under way has armed.
#[derive(Clone, Copy)]
pub struct Driver {
    pub transfer: Option<Run>,
    pub rule: DeskRule,
    pub entries: u32,
    pub pipes: Pipes,
    pub last: DeviceStatus,
}

// A transfer under way: what its begin asked for, and the stage that it is in.
#[derive(Clone, Copy)]
pub struct Run {
    pub request: Request,
    pub stage: Stage,
}

// `length` is that of the caller's buffer.
#[derive(Clone, Copy)]
pub struct Request {
    pub address: u8,
    pub size: u8,
    pub kind: Kind,
    pub length: usize,
}

#[derive(Clone, Copy)]
pub enum Kind {
    Control(Control),
    Bulk(Bulk),
}

#[derive(Clone, Copy)]
pub struct Control {
    pub phase: DataPhase,
    pub wLength: u16,
}

// `toggle` is the one that came in with the begin.
#[derive(Clone, Copy)]
pub struct Bulk {
    pub direction: Direction,
    pub endpoint: u8,
    pub toggle: bool,
}

// SETUP, or packets moving IN or OUT, as the data or the status stage.
#[derive(Clone, Copy)]
pub enum Stage {
    Setup,
    In(InStage),
    Out(OutStage),
}

// `slot`, `toarm` and `zlp` are the packetiser's, `retire`, `remain` and `offset` the depacketiser's.
#[derive(Clone, Copy)]
pub struct InStage {
    pub status: bool,
    pub slot: bool,
    pub toarm: u16,
    pub zlp: bool,
    pub retire: bool,
    pub remain: u16,
    pub offset: u16,
    pub inflight: u8,
}

// `slot`, `remain`, `offset` and `zlp` are the packetiser's, `retire` the depacketiser's. What each direction counts differs, and the definitions `in_packets` and `out_packets` name the fields.
// `received` is the data stage's count, kept through the status stage.
#[derive(Clone, Copy)]
pub struct OutStage {
    pub status: bool,
    pub slot: bool,
    pub remain: u16,
    pub offset: u16,
    pub zlp: bool,
    pub retire: bool,
    pub inflight: u8,
    pub received: u16,
}

// The interrupt pipes: which are open, by their indices, and of each its packet size and toggle.
#[derive(Clone, Copy)]
pub struct Pipes {
    pub opened: BitSet,
    pub each: [Pipe; 15],
}

#[derive(Clone, Copy)]
pub struct Pipe {
    pub size: u8,
    pub toggle: bool,
}
