// The blocks of register writes that a transfer is made of, put into the log.
ghost use Rattle.std.specs.Prelude.{◌≡◌, ◌+◌, ◌<◌, ◌≤◌, ◌++◌};
ghost use Rattle.transfers.specs.Registers.{weigh, half};
ghost use Rattle.transfers.specs.Puts.{Puts};
ghost use Rattle.transfers.specs.Writes.{preamble, low_word, high_word, setup_words, setup_start, epx_value, head_writes, arm_value, arm_writes, enable_writes, towards, go_writes, quiets};

use crate::host_controller::TransferExtras;
use crate::log::Log;
use crate::registers::*;
use crate::wire::{Direction, SetupPacket};
use cutting::packetiser::Arm;

// Whom a stage talks to: device address, endpoint, packet size and first PID.
#[derive(Clone, Copy)]
pub struct Target {
    pub address: u8,
    pub endpoint: u8,
    pub size: u8,
    pub pid: bool,
}

// w where b holds, else 0.
pub(crate) fn weight(b: bool, w: u32) -> u32
    ensures { (result ≡ weigh b w) × (result ≤ w) }
{
    if b { w } else { 0 }
}

// A value in a slot's half of EP_BUFFER_CONTROL.
fn in_half(slot: bool, v: u32) -> u32
    requires { v < 0x1_0000 }
    ensures { result ≡ half slot v }
{
    if slot { v * 0x1_0000 } else { v }
}

fn low_word(s: SetupPacket) -> u32
    ensures { result ≡ low_word s }
{
    s.bmRequestType as u32 + s.bRequest as u32 * 0x100 + s.wValue as u32 * 0x1_0000
}

fn high_word(s: SetupPacket) -> u32
    ensures { result ≡ high_word s }
{
    s.wIndex as u32 + s.wLength as u32 * 0x1_0000
}

pub(crate) fn preamble(x: TransferExtras) -> bool
    ensures { result ≡ preamble x }
{
    match x {
        TransferExtras::Normal => false,
        TransferExtras::WithPreamble => true,
    }
}

fn put_setup_words(log: &mut Log<'_>, s: SetupPacket)
    requires { log.old.used ≤ 59 }
    ensures { Puts log.old (setup_words s) log.new }
{
    log.put(EPX_CONTROL, ALL, EPX_BUFFER);
    log.put(EP_BUFFER_CONTROL, ALL, 0);
    log.put(SETUP_PACKET_LOW, ALL, low_word(s));
    log.put(SETUP_PACKET_HIGH, ALL, high_word(s));
    log.put(SIE_STATUS, ALL, ALL)
}

fn put_setup_start(log: &mut Log<'_>, address: u8, x: TransferExtras)
    requires { log.old.used ≤ 60 }
    ensures { Puts log.old (setup_start address x) log.new }
{
    log.put(ADDR_ENDP, ALL, address as u32);
    log.put(
        SIE_CTRL,
        SETUP_TRANSACTION,
        SEND_SETUP + weight(preamble(x), PREAMBLE_EN),
    );
    log.put_delay();
    log.put(SIE_CTRL, START_TRANS, START_TRANS)
}

// `send_setup` up to its first poll.
pub(crate) fn put_setup(log: &mut Log<'_>, address: u8, x: TransferExtras, s: SetupPacket)
    requires { log.old.used ≤ 55 }
    ensures { Puts log.old (setup_words s ++ setup_start address x) log.new }
{
    put_setup_words(log, s);
    put_setup_start(log, address, x)
}

fn epx_value(t: Target, n: usize) -> u32
    ensures { result ≡ epx_value t n }
{
    EPX_ENABLED + weight(t.size as usize <= n, BOTH_BUFFERS) + weight(t.endpoint != 0, TYPE_BULK)
}

// `control_transfer_inner` of n bytes, before its first packet.
#[tactic(auto, unfolding(crate::specs::Writes::head_writes))]
pub(crate) fn put_head(log: &mut Log<'_>, t: Target, n: usize)
    requires { log.old.used ≤ 59 }
    ensures { Puts log.old (head_writes t n) log.new }
{
    log.put(EPX_CONTROL, ALL, epx_value(t, n));
    log.put(EP_BUFFER_CONTROL, ALL, 0);
    log.put(SIE_STATUS, ALL, ALL);
    log.put(
        ADDR_ENDP,
        ALL,
        t.address as u32 + t.endpoint as u32 * 0x1_0000,
    );
    log.put(NAK_POLL, ALL, NAK_DELAYS)
}

fn arm_value(full: bool, a: Arm) -> u32
    ensures { (result ≡ arm_value full a) × (result < 0x1_0000) }
{
    a.length as u32 + weight(a.pid, PID) + weight(a.last, LAST) + weight(full, FULL)
}

// `prepare`: a slot is armed.
#[tactic(auto, unfolding(crate::specs::Writes::arm_writes))]
#[inline(always)]
pub(crate) fn put_arm(log: &mut Log<'_>, full: bool, a: Arm)
    requires { log.old.used ≤ 61 }
    ensures { Puts log.old (arm_writes full a) log.new }
{
    let v = arm_value(full, a);
    log.put(
        EP_BUFFER_CONTROL,
        in_half(a.slot, PACKET),
        in_half(a.slot, v),
    );
    log.put_delay();
    log.put(
        EP_BUFFER_CONTROL,
        in_half(a.slot, AVAILABLE),
        in_half(a.slot, AVAILABLE),
    )
}

#[tactic(auto, unfolding(crate::specs::Writes::enable_writes))]
#[inline(always)]
pub(crate) fn put_enable(log: &mut Log<'_>, size: u8, n: usize)
    requires { log.old.used ≤ 61 }
    ensures { Puts log.old (enable_writes size n) log.new }
{
    let m = ENDING_MASK + weight(2 * (size as usize) <= n, BUFF_STATUS_MASK);
    log.put(SIE_STATUS, ALL, RESULTS);
    log.put(BUFF_STATUS, ALL, EPX_BUFFERS);
    log.put(INTE, m, m)
}

fn towards_value(d: Direction) -> u32
    ensures { result ≡ towards d }
{
    match d {
        Direction::In => RECEIVE_DATA,
        Direction::Out => SEND_DATA,
    }
}

// The transaction is started.
#[tactic(auto, unfolding(crate::specs::Writes::go_writes))]
pub(crate) fn put_go(log: &mut Log<'_>, d: Direction)
    requires { log.old.used ≤ 61 }
    ensures { Puts log.old (go_writes d) log.new }
{
    log.put(SIE_CTRL, TRANSACTION, towards_value(d));
    log.put_delay();
    log.put(SIE_CTRL, START_TRANS, START_TRANS)
}

#[inline(always)]
pub(crate) fn put_quiets(log: &mut Log<'_>)
    requires { log.old.used ≤ 62 }
    ensures { Puts log.old quiets log.new }
{
    log.put(BUFF_STATUS, ALL, EPX_BUFFERS);
    log.put(INTE, ENDING_MASK, 0)
}
