// Runs what no replay script can give: smallest inputs of docs/DIFFERENCES.md, and forged states at the bounds of 16.
#![tactic(auto)]

mod bounds;
mod callers;
mod forged;
mod hosts;
mod kept;
mod shares;
mod stages;

use cutting::packetiser::OutCounters;
use cutting::transfer_type::TransferType;
use pool::async_pool::{Pool, PoolIndex};
use pool::bitset::BitSet;
use std::io;
use std::io::Write;

// Number 32 of a set.
fn bits<W: Write>(out: &mut W) -> io::Result<()> {
    let full = BitSet(0xFFFF_FFFF);
    writeln!(out, "set 32 of none: {}", BitSet::new().set(32).0)?;
    writeln!(out, "clear 32 of all: {}", full.clear(32).0)?;
    writeln!(out, "all contains 32: {}", full.contains(32) as u8)
}

// A total of 33, and an index that isn't allocated.
fn pools<W: Write>(out: &mut W) -> io::Result<()> {
    writeln!(out, "pool of 33: {}", Pool::new(33).total)?;
    let freed = Pool::new(1).free(PoolIndex(0));
    writeln!(out, "free 0 of a fresh pool: {}", freed.was as u8)
}

// A packet size of 0.
fn packet<W: Write>(out: &mut W, kind: TransferType, length: u16) -> io::Result<()> {
    match OutCounters::new(kind, 0, false, length).next_packet().arm {
        Some(arm) => writeln!(out, " {}", arm.length),
        None => writeln!(out, " no packet"),
    }
}

fn packets<W: Write>(out: &mut W) -> io::Result<()> {
    write!(out, "0 bytes at 0, variable:")?;
    packet(out, TransferType::VariableSize, 0)?;
    write!(out, "0 bytes at 0, fixed:")?;
    packet(out, TransferType::FixedSize, 0)?;
    write!(out, "1 byte at 0, fixed:")?;
    packet(out, TransferType::FixedSize, 1)
}

fn print_all<W: Write>(out: &mut W) -> io::Result<()> {
    bits(out)?;
    pools(out)?;
    packets(out)?;
    stages::stages(out)?;
    bounds::bounds(out)?;
    callers::callers(out)?;
    shares::shares(out)
}

fn main(rt: HostRuntime) -> io::Result<()> {
    print_all(&mut rt.stdout())
}
