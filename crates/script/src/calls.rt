// The lines of calls other than begins. Each answers nothing where the line can't be read.
ghost use Rattle.std.specs.Prelude.{◌≡◌, unwrap_or};
ghost use Rattle.script.specs.Lines.{rule_of, lend_of, step_of, step_in_of, step_out_of, open_of, close_of, poll_of, irq_of, detect_of, stored_call, memory_of, buffer_of};

use crate::command::{Call, Interrupt, Lent, Opening, Polling, Rule, Stepping, Stored};
use crate::typed::{bit_at, byte_at, bytes_at, fields, half_at, length_at, word_at};

// `rule 1` or `rule 2`.
#[tactic(auto, unfolding(crate::specs::Lines::rule_of))]
pub(crate) fn read_rule(line: &[u8]) -> Option<Call>
    ensures { unwrap_or result Call.Wrong ≡ rule_of line.now }
{
    if fields(line) != 2 {
        return None;
    }
    match byte_at(line, 1)? {
        1 => Some(Call::Rule(Rule::One)),
        2 => Some(Call::Rule(Rule::Two)),
        _ => None,
    }
}

// `lend PMLEN LOGLEN`.
#[tactic(auto, unfolding(crate::specs::Lines::lend_of))]
pub(crate) fn read_lend(line: &[u8]) -> Option<Call>
    ensures { unwrap_or result Call.Wrong ≡ lend_of line.now }
{
    if fields(line) != 3 {
        return None;
    }
    let memory = length_at(line, 1, 4096)?;
    let words = length_at(line, 2, 192)?;
    Some(Call::Lend(Lent { memory, words }))
}

// The sample of `step-in` and `step-out`.
#[tactic(auto, unfolding(crate::specs::Lines::step_of))]
fn read_step(line: &[u8]) -> Option<Stepping>
    ensures { result ≡ step_of line.now }
{
    if fields(line) != 4 {
        return None;
    }
    let status = word_at(line, 1)?;
    let intr = word_at(line, 2)?;
    let buffers = word_at(line, 3)?;
    Some(Stepping {
        status,
        intr,
        buffers,
    })
}

// `open ADDRESS PREAMBLE ENDPOINT SIZE INTERVAL`.
#[tactic(auto, unfolding(crate::specs::Lines::open_of))]
pub(crate) fn read_open(line: &[u8]) -> Option<Call>
    ensures { unwrap_or result Call.Wrong ≡ open_of line.now }
{
    if fields(line) != 6 {
        return None;
    }
    let address = byte_at(line, 1)?;
    let preamble = bit_at(line, 2)?;
    let endpoint = byte_at(line, 3)?;
    let size = half_at(line, 4)?;
    let interval = byte_at(line, 5)?;
    Some(Call::Open(Opening {
        address,
        preamble,
        endpoint,
        size,
        interval,
    }))
}

// `close PIPE`.
#[tactic(auto, unfolding(crate::specs::Lines::close_of))]
pub(crate) fn read_close(line: &[u8]) -> Option<Call>
    ensures { unwrap_or result Call.Wrong ≡ close_of line.now }
{
    if fields(line) != 2 {
        return None;
    }
    Some(Call::Close(byte_at(line, 1)?))
}

// `poll PIPE EP_BUFFER_CONTROL HOST_ADDR_ENDP`.
#[tactic(auto, unfolding(crate::specs::Lines::poll_of))]
pub(crate) fn read_poll(line: &[u8]) -> Option<Call>
    ensures { unwrap_or result Call.Wrong ≡ poll_of line.now }
{
    if fields(line) != 4 {
        return None;
    }
    let pipe = byte_at(line, 1)?;
    let buffer = word_at(line, 2)?;
    let target = word_at(line, 3)?;
    Some(Call::Poll(Polling {
        pipe,
        buffer,
        target,
    }))
}

// `irq INTS BUFF_STATUS`.
#[tactic(auto, unfolding(crate::specs::Lines::irq_of))]
pub(crate) fn read_irq(line: &[u8]) -> Option<Call>
    ensures { unwrap_or result Call.Wrong ≡ irq_of line.now }
{
    if fields(line) != 3 {
        return None;
    }
    let ints = word_at(line, 1)?;
    let status = word_at(line, 2)?;
    Some(Call::Irq(Interrupt { ints, status }))
}

// `detect SIE_STATUS`.
#[tactic(auto, unfolding(crate::specs::Lines::detect_of))]
pub(crate) fn read_detect(line: &[u8]) -> Option<Call>
    ensures { unwrap_or result Call.Wrong ≡ detect_of line.now }
{
    if fields(line) != 2 {
        return None;
    }
    Some(Call::Detect(word_at(line, 1)?))
}

pub(crate) fn read_step_in(line: &[u8]) -> Option<Call>
    ensures { unwrap_or result Call.Wrong ≡ step_in_of line.now }
{
    Some(Call::StepIn(read_step(line)?))
}

pub(crate) fn read_step_out(line: &[u8]) -> Option<Call>
    ensures { unwrap_or result Call.Wrong ≡ step_out_of line.now }
{
    Some(Call::StepOut(read_step(line)?))
}

fn stored_call(offset: usize, count: usize) -> Option<Call>
    ensures { unwrap_or result Call.Wrong ≡ stored_call offset count }
{
    if offset.checked_add(count)? > 4096 {
        return None;
    }
    Some(Call::Memory(Stored { offset, count }))
}

// `pm OFFSET BYTES`.
#[tactic(auto, unfolding(crate::specs::Lines::memory_of))]
pub(crate) fn read_memory(line: &[u8], out: &mut [u8; 131072]) -> Option<Call>
    ensures { (unwrap_or result Call.Wrong ≡ (memory_of line.now out.old).call) × (out.new ≡ (memory_of line.now out.old).stored) }
{
    if fields(line) != 3 {
        return None;
    }
    let offset = length_at(line, 1, 4096)?;
    let count = bytes_at(line, 2, out)?;
    stored_call(offset, count)
}

// `buffer BYTES`.
#[tactic(auto, unfolding(crate::specs::Lines::buffer_of))]
pub(crate) fn read_buffer(line: &[u8], out: &mut [u8; 131072]) -> Option<Call>
    ensures { (unwrap_or result Call.Wrong ≡ (buffer_of line.now out.old).call) × (out.new ≡ (buffer_of line.now out.old).stored) }
{
    if fields(line) != 2 {
        return None;
    }
    Some(Call::Buffer(bytes_at(line, 1, out)?))
}
