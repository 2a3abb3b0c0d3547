// The reader's automaton: what may come after the entries read so far.
ghost use Rattle.std.specs.Prelude.{◌≡◌, ◌≤◌, ◌<◌};
ghost use Rattle.record.specs.Scan.{bulk_start, control_start, bulk_next, control_next, feed_setup, feed_out, starts_out};
ghost use Rattle.record.specs.Place.{may_end, feed_failed, run_on, lost};

use crate::look::OutHead;

// Between items; after a SETUP of a wLength; in a bulk group or in a control's: the next packet's PID, the packet size, and the bytes so far.
#[derive(Clone, Copy)]
pub enum Scan {
    Between,
    AfterSetup {
        address: u8,
        length: u16,
    },
    InBulk {
        address: u8,
        endpoint: u8,
        pid: bool,
        size: u8,
        sent: u16,
    },
    InControl {
        address: u8,
        length: u16,
        pid: bool,
        size: u8,
        sent: u16,
    },
}

// The first packet of a bulk group. Bulk and control groups differ in what they ask of a packet, not in a type or a number.
fn bulk_start(x: OutHead) -> Option<Scan>
    ensures { result ≡ bulk_start x.address x.endpoint x.pid x.last x.length }
{
    if x.last {
        return (1 <= x.endpoint).then_some(Scan::Between);
    }
    (1 <= x.endpoint && 1 <= x.length).then_some(Scan::InBulk {
        address: x.address,
        endpoint: x.endpoint,
        pid: !x.pid,
        size: x.length,
        sent: x.length as u16,
    })
}

// The first packet on endpoint 0 after a SETUP.
fn control_start(address: u8, length: u16, x: OutHead) -> Option<Scan>
    ensures { result ≡ control_start address length x.address x.pid x.last x.length }
{
    let n = x.length as u16;
    if x.last {
        return (x.address == address && x.pid && (n == 0 || n == length)).then_some(Scan::Between);
    }
    (x.address == address && x.pid && 1 <= n && n < length).then_some(Scan::InControl {
        address,
        length,
        pid: false,
        size: x.length,
        sent: n,
    })
}

// A further packet of a bulk group, whose numbers come one by one, as the definition `bulk_next` takes them; so below.
fn bulk_next(address: u8, endpoint: u8, pid: bool, size: u8, sent: u16, x: OutHead) -> Option<Scan>
    ensures { result ≡ bulk_next address endpoint pid size sent x.address x.endpoint x.pid x.last x.length }
{
    let sum = sent as u32 + x.length as u32;
    let in_limit = sum <= 65535;
    let next = x.address == address && x.endpoint == endpoint && x.pid == pid;
    if x.last {
        return (next && x.length <= size && in_limit).then_some(Scan::Between);
    }
    if next && x.length == size && in_limit {
        Some(Scan::InBulk {
            address,
            endpoint,
            pid: !pid,
            size,
            sent: sum as u16,
        })
    } else {
        None
    }
}

// A further packet of a control's group.
fn control_next(
    address: u8,
    length: u16,
    pid: bool,
    size: u8,
    sent: u16,
    x: OutHead,
) -> Option<Scan>
    ensures { result ≡ control_next address length pid size sent x.address x.endpoint x.pid x.last x.length }
{
    let sum = sent as u32 + x.length as u32;
    let whole = length as u32;
    let next = x.address == address && x.endpoint == 0 && x.pid == pid;
    if x.last {
        return (next && 1 <= x.length && x.length <= size && sum == whole).then_some(Scan::Between);
    }
    if next && x.length == size && sum < whole {
        Some(Scan::InControl {
            address,
            length,
            pid: !pid,
            size,
            sent: sum as u16,
        })
    } else {
        None
    }
}

pub(crate) fn may_end(s: Scan) -> bool
    ensures { result ≡ may_end s }
{
    matches!(s, Scan::Between | Scan::AfterSetup { .. })
}

// A SETUP entry.
pub(crate) fn feed_setup(s: Scan, address: u8, length: u16) -> Option<Scan>
    ensures { result ≡ feed_setup s address length }
{
    may_end(s).then_some(Scan::AfterSetup { address, length })
}

// An OUT entry.
pub(crate) fn feed_out(s: Scan, x: OutHead) -> Option<Scan>
    ensures { result ≡ feed_out s x.address x.endpoint x.pid x.last x.length }
{
    match s {
        Scan::AfterSetup { address, length } if x.endpoint == 0 => {
            control_start(address, length, x)
        }
        Scan::Between | Scan::AfterSetup { .. } => bulk_start(x),
        Scan::InBulk {
            address,
            endpoint,
            pid,
            size,
            sent,
        } => { bulk_next(address, endpoint, pid, size, sent, x) }
        Scan::InControl {
            address,
            length,
            pid,
            size,
            sent,
        } => { control_next(address, length, pid, size, sent, x) }
    }
}

// How many items begin at an OUT entry, 1 or none: a number, since it is added to their count.
pub(crate) fn starts_out(s: Scan, endpoint: u8) -> usize
    ensures { (result ≡ starts_out s endpoint) × (result ≤ 1) }
{
    match s {
        Scan::AfterSetup { .. } if endpoint == 0 => 0,
        Scan::Between | Scan::AfterSetup { .. } => 1,
        Scan::InBulk { .. } | Scan::InControl { .. } => 0,
    }
}

// A count of m, where the last item has `run` entries.
pub(crate) fn feed_failed(s: Scan, run: usize, m: usize) -> Option<Scan>
    ensures { result ≡ feed_failed s run m }
{
    (m == run || (m == 0 && may_end(s))).then_some(Scan::Between)
}

// The entries of the last item after an entry that begins an item (1) or goes on (0).
pub(crate) fn run_on(starts: usize, run: usize) -> usize
    requires { run < 0xFFFF_FFFF_FFFF_FFFF }
    ensures { result ≡ run_on starts run }
{
    if starts == 0 { run + 1 } else { 1 }
}

// The items that are left after a count of m.
pub(crate) fn kept_items(m: usize, k: usize) -> usize
    ensures { result ≡ lost m k }
{
    if m == 0 { k } else { k.saturating_sub(1) }
}
