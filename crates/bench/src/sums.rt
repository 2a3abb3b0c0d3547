// What the workloads left: the counts, and a number for each of the buffer, packet memory and the log.
use crate::Work;
use std::io;
use std::io::Write;
use transfers::answers::Step;
use transfers::refusal::Refusal;

#[derive(Clone, Copy)]
pub struct Sums {
    pub count: u64,
    pub buffer: u64,
    pub memory: u64,
    pub log: u64,
}

const LIMIT: u64 = 0x1_0000_0000;

// The sum of the counts, below the limit.
pub fn counted(count: u64, answer: Result<Step, Refusal>) -> u64 {
    match answer {
        Ok(Step::Done(n)) => (count % LIMIT + n as u64 % LIMIT) % LIMIT,
        _ => count,
    }
}

fn mixed(sum: u64, x: u32) -> u64 {
    (sum % LIMIT * 31 + x as u64) % 0xFFFF_FFFB
}

fn sum<T: Copy + Into<u32>>(items: &[T]) -> u64 {
    let mut sum: u64 = 0;
    for x in items {
        sum = mixed(sum, (*x).into());
    }
    sum
}

pub fn sum_all(work: &Work) -> Sums {
    Sums {
        count: work.count,
        buffer: sum(&work.buf),
        memory: sum(&work.pm),
        log: sum(&work.log),
    }
}

pub fn print_sums<W: Write>(out: &mut W, sums: Sums) -> io::Result<()> {
    writeln!(
        out,
        "count {} buffer {} memory {} log {}",
        sums.count, sums.buffer, sums.memory, sums.log
    )
}
