// The interrupt pipes: open, close and poll.
ghost use Rattle.std.specs.Prelude.{◌≡◌, ◌+◌, ◌*◌, ◌^◌, ◌<◌, ◌≤◌, length};
ghost use Rattle.pool.specs.Pipe.{Counted};
ghost use Rattle.transfers.specs.Puts.{Puts};
ghost use Rattle.transfers.specs.Reply.{open_reply, close_reply, poll_reply};
ghost use Rattle.transfers.specs.Rows.{open_row_of, close_row_of, poll_row};
ghost use Rattle.transfers.specs.Pipes.{fresh_pipes, pool_of, pipe_area, arm_pipe, poll_interval, open_writes, open_free, opening_pipe, opening, DidOpen, index_open, closing_pipe, closing, packet_size, packet_data, packet_of, no_packet, wait_writes, poll_full, polling_pipe, polling, DidPoll};
ghost use Rattle.transfers.specs.Memory.{LogFits};

use crate::driver::{Driver, Pipe, Pipes};
use crate::host_controller::{InterruptPacket, TransferExtras, UsbError};
use crate::log::Log;
use crate::memory::{PacketMemory, lent_fits, log_fits};
use crate::refusal::Refusal;
use crate::registers::*;
use crate::state::{endpoint_good, size_good};
use crate::writes::{preamble, weight};
use pool::async_pool::{Pool, PoolIndex};
use pool::bitset::BitSet;
use pool::pipe::PipeNumber;

// EP_BUFFER_CONTROL and HOST_ADDR_ENDP of a pipe, as read.
#[derive(Clone, Copy)]
pub struct PipeSample {
    pub buffer: u32,
    pub address: u32,
}

// What a call leaves of the driver, or of its pipes alone.
#[derive(Clone, Copy)]
pub struct Opened<S = Driver> {
    pub next: S,
    pub answer: Result<PipeNumber, Refusal>,
    pub writes: usize,
}

#[derive(Clone, Copy)]
pub struct Closed<S = Driver> {
    pub next: S,
    pub answer: Result<(), Refusal>,
}

// What a poll finds.
#[derive(Clone, Copy)]
pub enum Poll {
    Packet,
    Waiting,
}

// `packet` is all zeros where the answer is no packet: the definition `polling` has one beside every answer.
#[derive(Clone, Copy)]
pub struct Polled<S = Driver> {
    pub next: S,
    pub answer: Result<Poll, Refusal>,
    pub packet: InterruptPacket,
    pub writes: usize,
}

pub(crate) fn fresh_pipes() -> Pipes
    ensures { result ≡ fresh_pipes }
{
    Pipes {
        opened: BitSet::new(),
        each: [Pipe {
            size: 0,
            toggle: false,
        }; 15],
    }
}

// The pool of the 15 pipes, those in the set allocated.
fn pool_of(opened: BitSet) -> Pool
    ensures { result ≡ pool_of opened }
{
    Pool {
        total: 15,
        allocated: opened,
    }
}

fn pipe_area(n: u32) -> u32
    requires { n ≤ 15 }
    ensures { result ≡ pipe_area n }
{
    0x200 + 128 * n
}

fn arm_pipe(log: &mut Log<'_>, n: u32, toggle: bool, size: u32)
    requires { (log.old.used ≤ 61) × (n ≤ 15) × (size < 256) }
    ensures { Puts log.old (arm_pipe n toggle size) log.new }
{
    let register = EP_BUFFER_CONTROL + 8 * n;
    let value = LAST + weight(toggle, PID) + size;
    log.put(register, ALL, value);
    log.put_delay();
    log.put(register, AVAILABLE, AVAILABLE);
}

const MAX_POLL_INTERVAL: u8 = 9;

fn poll_interval(interval: u8) -> u8
    ensures { result ≡ poll_interval interval }
{
    interval.min(MAX_POLL_INTERVAL)
}

fn put_open(
    log: &mut Log<'_>,
    pipe: PipeNumber,
    address: u8,
    extras: TransferExtras,
    endpoint: u8,
    size: u8,
    interval: u8,
)
    requires { (log.old.used ≤ 59) × (pipe.0 ≤ 15) × (address ≤ 127) × (endpoint ≤ 15) }
    ensures { Puts log.old (open_writes pipe.0 address extras endpoint size interval) log.new }
{
    let n = pipe.0 as u32;
    let target = address as u32
        + endpoint as u32 * 0x1_0000
        + weight(preamble(extras), INTEP_PREAMBLE);
    let control = PIPE_ENABLED + poll_interval(interval) as u32 * 0x1_0000 + pipe_area(n);
    log.put(ADDR_ENDP + 4 * n, ALL, target);
    log.put(EP_CONTROL + 8 * n, ALL, control);
    arm_pipe(log, n, false, size as u32);
}

fn refuse_open(pipes: Pipes, why: Refusal) -> Opened<Pipes>
    ensures { (result.next ≡ pipes) × (result.answer ≡ Err why) × (result.writes ≡ 0) }
{
    Opened {
        next: pipes,
        answer: Err(why),
        writes: 0,
    }
}

#[tactic(auto, unfolding(crate::specs::Pipes::open_free))]
fn open_free(
    mut pipes: Pipes,
    address: u8,
    extras: TransferExtras,
    endpoint: u8,
    size: u8,
    interval: u8,
    log: &mut [u32],
) -> Opened<Pipes>
    requires { LogFits log.old × (address ≤ 127) × (endpoint ≤ 15) }
    ensures { DidOpen (open_free pipes address extras endpoint size interval) result.next result.answer result.writes log.old log.new }
{
    let taken = pool_of(pipes.opened).alloc();
    let Some(at) = taken.index else {
        return refuse_open(pipes, Refusal::Usb(UsbError::TooManyDevices));
    };
    let Some(n) = at.pipe() else {
        return refuse_open(pipes, Refusal::Usb(UsbError::TooManyDevices));
    };
    let mut log = Log {
        words: log,
        used: 0,
    };
    put_open(&mut log, n, address, extras, endpoint, size, interval);
    pipes.opened = taken.pool.allocated;
    pipes.each[at.0 as usize] = Pipe {
        size,
        toggle: false,
    };
    Opened {
        next: pipes,
        answer: Ok(n),
        writes: log.used,
    }
}

#[tactic(auto, unfolding(crate::specs::Pipes::opening_pipe))]
fn open_pipe(
    pipes: Pipes,
    address: u8,
    extras: TransferExtras,
    endpoint: u8,
    size: u16,
    interval: u8,
    log: &mut [u32],
) -> Opened<Pipes>
    ensures { DidOpen (opening_pipe pipes address extras endpoint size interval log.old) result.next result.answer result.writes log.old log.new }
{
    if !log_fits(log) {
        return refuse_open(pipes, Refusal::LentMemory);
    }
    if 127 < address {
        return refuse_open(pipes, Refusal::Address);
    }
    if !endpoint_good(endpoint) {
        return refuse_open(pipes, Refusal::Usb(UsbError::NoSuchEndpoint));
    }
    if !size_good(size) {
        return refuse_open(pipes, Refusal::PacketSize);
    }
    open_free(pipes, address, extras, endpoint, size as u8, interval, log)
}

// The index of a pipe that is open.
#[tactic(auto, unfolding(crate::specs::Pipes::index_open))]
fn index_open(opened: BitSet, pipe: PipeNumber) -> Option<PoolIndex>
    ensures { result ≡ index_open opened pipe }
{
    pipe.index().filter(|at| opened.contains(at.0))
}

#[tactic(auto, unfolding(crate::specs::Pipes::closing_pipe))]
fn close_pipe(mut pipes: Pipes, pipe: PipeNumber) -> Closed<Pipes>
    ensures { result ≡ closing_pipe pipes pipe }
{
    let Some(at) = index_open(pipes.opened, pipe) else {
        return Closed {
            next: pipes,
            answer: Err(Refusal::PipeNotOpen),
        };
    };
    pipes.opened = pool_of(pipes.opened).free(at).pool.allocated;
    Closed {
        next: pipes,
        answer: Ok(()),
    }
}

fn no_packet() -> InterruptPacket
    ensures { result ≡ no_packet }
{
    InterruptPacket {
        address: 0,
        endpoint: 0,
        size: 0,
        data: [0; 64],
    }
}

// The first k bytes of a pipe's area, then zeros.
fn packet_data(pm: &PacketMemory, n: u32, k: u8) -> [u8; 64]
    requires { (n ≤ 15) × (k ≤ 64) }
    ensures { result ≡ packet_data pm.now n k }
{
    let area = pipe_area(n) as usize;
    let k = k as usize;
    let mut data = [0u8; 64];
    data[..k].copy_from_slice(&pm[area..area + k]);
    data
}

fn packet_size(buffer: u32) -> u8
    ensures { (result ≡ packet_size buffer) × (result ≤ 64) }
{
    (buffer % 0x400).min(64) as u8
}

fn packet_of(n: u32, sample: PipeSample, pm: &PacketMemory) -> InterruptPacket
    requires { (n ≤ 15) }
    ensures { result ≡ packet_of n sample pm.now }
{
    let size = packet_size(sample.buffer);
    InterruptPacket {
        address: (sample.address % 0x80) as u8,
        endpoint: (sample.address / 0x1_0000 % 0x10) as u8,
        size,
        data: packet_data(pm, n, size),
    }
}

// 2 to the n.
fn pipe_bit(n: u32) -> u32
    requires { n < 32 }
    ensures { result ≡ 2 ^ n }
{
    1u32 << n
}

fn put_wait(log: &mut Log<'_>, n: u32)
    requires { (log.old.used ≤ 61) × (n ≤ 15) }
    ensures { Puts log.old (wait_writes n) log.new }
{
    let bit = pipe_bit(n);
    let status = 3 * pipe_bit(2 * n);
    log.put(INTE, BUFF_STATUS_MASK, BUFF_STATUS_MASK);
    log.put(INT_EP_CTRL, bit, bit);
    log.put(EP_STATUS_STALL_NAK, ALL, status);
}

fn refuse_poll(pipes: Pipes, why: Refusal) -> Polled<Pipes>
    ensures { (result.next ≡ pipes) × (result.answer ≡ Err why) × (result.packet ≡ no_packet) × (result.writes ≡ 0) }
{
    Polled {
        next: pipes,
        answer: Err(why),
        packet: no_packet(),
        writes: 0,
    }
}

#[tactic(auto, unfolding(crate::specs::Pipes::poll_full))]
fn poll_full(
    mut pipes: Pipes,
    at: PoolIndex,
    pipe: PipeNumber,
    sample: PipeSample,
    pm: &PacketMemory,
    log: &mut [u32],
) -> Polled<Pipes>
    requires { LogFits log.old × Counted at pipe }
    ensures { DidPoll (poll_full at pipes pipe sample pm.now) result.next result.answer result.packet result.writes log.old log.new }
{
    let n = pipe.0 as u32;
    let i = at.0 as usize;
    let packet = packet_of(n, sample, pm);
    let held = pipes.each[i];
    let toggle = !held.toggle;
    let mut log = Log {
        words: log,
        used: 0,
    };
    arm_pipe(&mut log, n, toggle, held.size as u32);
    pipes.each[i] = Pipe { toggle, ..held };
    Polled {
        next: pipes,
        answer: Ok(Poll::Packet),
        packet,
        writes: log.used,
    }
}

#[tactic(auto, unfolding(crate::specs::Pipes::polling_pipe))]
fn poll_pipe(
    pipes: Pipes,
    pipe: PipeNumber,
    sample: PipeSample,
    pm: &[u8],
    log: &mut [u32],
) -> Polled<Pipes>
    ensures { DidPoll (polling_pipe pipes pipe sample pm.now log.old) result.next result.answer result.packet result.writes log.old log.new }
{
    if !lent_fits(pm, log) {
        return refuse_poll(pipes, Refusal::LentMemory);
    }
    let Some(at) = index_open(pipes.opened, pipe) else {
        return refuse_poll(pipes, Refusal::PipeNotOpen);
    };
    if bit(sample.buffer, 15) {
        return poll_full(pipes, at, pipe, sample, pm.as_array().unwrap(), log);
    }
    let mut log = Log {
        words: log,
        used: 0,
    };
    put_wait(&mut log, pipe.0 as u32);
    Polled {
        next: pipes,
        answer: Ok(Poll::Waiting),
        packet: no_packet(),
        writes: log.used,
    }
}

impl Driver {
    #[tactic(auto, using(crate::proofs::PipeReplies::open_row))]
    pub fn open(
        self,
        address: u8,
        extras: TransferExtras,
        endpoint: u8,
        size: u16,
        interval: u8,
        log: &mut [u32],
    ) -> Opened
        ensures { DidOpen (opening self address extras endpoint size interval log.old) result.next result.answer result.writes log.old log.new
            × (open_reply result.answer ≡ open_row_of self.pipes.opened.0 address endpoint size log.old) }
    {
        let o = open_pipe(self.pipes, address, extras, endpoint, size, interval, log);
        Opened {
            next: Driver {
                pipes: o.next,
                ..self
            },
            answer: o.answer,
            writes: o.writes,
        }
    }

    #[tactic(auto, using(crate::proofs::PipeReplies::close_row))]
    pub fn close(self, pipe: PipeNumber) -> Closed
        ensures { (result ≡ closing self pipe) × (close_reply result.answer ≡ close_row_of self.pipes.opened.0 pipe.0) }
    {
        let c = close_pipe(self.pipes, pipe);
        Closed {
            next: Driver {
                pipes: c.next,
                ..self
            },
            answer: c.answer,
        }
    }

    #[tactic(auto, using(crate::proofs::PipeReplies::poll_row_lem))]
    pub fn poll(self, pipe: PipeNumber, sample: PipeSample, pm: &[u8], log: &mut [u32]) -> Polled
        ensures { DidPoll (polling self pipe sample pm.now log.old) result.next result.answer result.packet result.writes log.old log.new
            × (poll_reply result.answer ≡ poll_row self.pipes.opened.0 pipe.0 sample.buffer pm.now log.old) }
    {
        let p = poll_pipe(self.pipes, pipe, sample, pm, log);
        Polled {
            next: Driver {
                pipes: p.next,
                ..self
            },
            answer: p.answer,
            packet: p.packet,
            writes: p.writes,
        }
    }
}
