// The benchmark of packets: a workload named by a letter on standard input (docs/BENCHMARKS.md), then what it left.
#![tactic(auto)]

use export::export;
use input::read_full;
use packet::crc::crc16;
use std::io;
use std::io::Write;

// Byte i of a record of version 2 whose entries are OUT packets of 64 bytes, each a group.
fn record_byte(i: usize) -> u8 {
    match i {
        0 => 0x57,
        1 => 0x4C,
        2 => 0x47,
        3 => 2,
        4 => 0,
        _ => entry_byte(i % 70, i),
    }
}

// Entries have 70 bytes and begin at byte 5.
fn entry_byte(place: usize, i: usize) -> u8 {
    match place {
        5 => 0x4F,
        6 => 5,
        7 => 2,
        8 => 0,
        9 => 1,
        10 => 64,
        _ => (i % 251) as u8,
    }
}

fn fill(bytes: &mut [u8]) {
    for (i, b) in bytes.iter_mut().enumerate() {
        *b = record_byte(i);
    }
}

// The record's CRC16, or how many bytes its packets have, by the input's letter.
fn run(letter: u8, record: &[u8], out: &mut [u8]) -> usize {
    match letter {
        b'C' => crc16(record) as usize,
        b'E' => export(record, out).unwrap_or(0),
        _ => 0,
    }
}

fn main(rt: HostRuntime) -> io::Result<()> {
    let mut letter = [0u8; 1];
    let mut record = [0u8; 65455];
    let mut out = [0u8; 131072];
    fill(&mut record);
    read_full(&mut rt.stdin(), &mut letter)?;
    let left = run(letter[0], &record, &mut out);
    writeln!(rt.stdout(), "{left}")
}
