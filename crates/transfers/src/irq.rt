// The interrupt routine. It takes no state: it says whom to wake.
ghost use Rattle.std.specs.Prelude.{◌≡◌, ◌+◌, ◌^◌, ◌<◌, ◌≤◌};
ghost use Rattle.transfers.specs.Irq.{has_buffer, is_woken, woken_pipes, clear_writes, waking, DidWake};
ghost use Rattle.transfers.specs.Puts.{Puts};
ghost use Rattle.transfers.specs.Registers.{bit, weigh};
ghost use Rattle.transfers.specs.Reply.{irq_reply};
ghost use Rattle.transfers.specs.Rows.{irq_row};

use crate::log::Log;
use crate::memory::log_fits;
use crate::refusal::Refusal;
use crate::registers::*;

// Bit i of `pipes` stands for pipe i; `detect` for device detection.
#[derive(Clone, Copy)]
pub struct Wake {
    pub pipes: u16,
    pub detect: bool,
}

#[derive(Clone, Copy)]
pub struct Woken {
    pub answer: Result<Wake, Refusal>,
    pub writes: usize,
}

// Pipes 0 to 15 are looked at.
const IRQ_PIPES: u32 = 16;

fn has_buffer(ints: u32, status: u32, i: u32) -> bool
    requires { i < 16 }
    ensures { result ≡ has_buffer ints status i }
{
    bit(ints, 4) && (status >> (2 * i)) % 4 != 0
}

fn is_woken(ints: u32, status: u32, i: u32) -> bool
    requires { i < 16 }
    ensures { result ≡ is_woken ints status i }
{
    has_buffer(ints, status, i) || (i == 0 && ints & READY_MASK != 0)
}

fn with_pipe(set: u16, i: u32, woken: bool) -> u16
    requires { (i < 16) × (set < 2 ^ i) }
    ensures { result ≡ set + weigh woken (2 ^ i) }
{
    if woken { set + (1u16 << i) } else { set }
}

#[tactic(auto, unfolding(pool::specs::Set::set_of, crate::specs::Irq::woken_pipes))]
fn woken_pipes(ints: u32, status: u32) -> u16
    ensures { result ≡ woken_pipes ints status }
{
    let mut set: u16 = 0;
    // The pipe's number is what its bits are worked out from; nothing is indexed.
    for i in 0..IRQ_PIPES {
        set = with_pipe(set, i, is_woken(ints, status, i));
    }
    set
}

fn clear_buffers(ints: u32, log: &mut Log<'_>)
    requires { log.old.used < 64 }
    ensures { Puts log.old (clear_writes (bit 4 ints)) log.new }
{
    if bit(ints, 4) {
        log.put(BUFF_STATUS, ALL, PIPE_BUFFERS);
    }
}

#[tactic(auto, unfolding(crate::specs::Irq::waking, crate::specs::Irq::woken_pipes))]
pub fn on_irq(ints: u32, buff_status: u32, log: &mut [u32]) -> Woken
    ensures { DidWake (waking ints buff_status log.old) result log.old log.new
        × (irq_reply result.answer ≡ irq_row ints buff_status log.old) }
{
    if !log_fits(log) {
        return Woken {
            answer: Err(Refusal::LentMemory),
            writes: 0,
        };
    }
    let mut log = Log {
        words: log,
        used: 0,
    };
    clear_buffers(ints, &mut log);
    log.put(INTE, ints, 0);
    Woken {
        answer: Ok(Wake {
            pipes: woken_pipes(ints, buff_status),
            detect: bit(ints, 0),
        }),
        writes: log.used,
    }
}
