// A line of a script.
ghost use Rattle.std.specs.Prelude.{◌≡◌, unwrap_or};
ghost use Rattle.script.specs.Lines.{alone_of, pipe_of, call_of, begin_of, is_skipped, line_of, unread};

use crate::begins::{
    read_bulk_in, read_bulk_out, read_control_in, read_control_none, read_control_out,
};
use crate::calls::{
    read_buffer, read_close, read_detect, read_irq, read_lend, read_memory, read_open, read_poll,
    read_rule, read_step_in, read_step_out,
};
use crate::command::{Call, Command};
use crate::field::same;
use crate::typed::field;

#[tactic(auto, unfolding(crate::specs::Lines::alone_of), using(crate::proofs::Walks::words))]
fn read_alone(line: &[u8]) -> Option<Call>
    ensures { unwrap_or result Call.Wrong ≡ alone_of line.now }
{
    match line {
        b"fresh" => Some(Call::Fresh),
        b"cancel" => Some(Call::Cancel),
        b"record" => Some(Call::Record),
        _ => None,
    }
}

#[tactic(auto, unfolding(crate::specs::Lines::pipe_of), using(crate::proofs::Walks::words))]
fn read_pipe(word: &[u8], line: &[u8]) -> Option<Call>
    ensures { unwrap_or result Call.Wrong ≡ pipe_of word.now line.now }
{
    match word {
        b"open" => read_open(line),
        b"close" => read_close(line),
        b"poll" => read_poll(line),
        b"irq" => read_irq(line),
        b"detect" => read_detect(line),
        _ => read_alone(line),
    }
}

#[tactic(auto, unfolding(crate::specs::Lines::call_of))]
fn read_word(word: &[u8], line: &[u8], out: &mut [u8; 131072]) -> Option<Call>
    ensures { (unwrap_or result Call.Wrong ≡ (call_of word.now line.now out.old).call) × (out.new ≡ (call_of word.now line.now out.old).stored) }
{
    // No `match`: the facts of so many words and letters were too many for the last arm to be proved.
    if same(word, b"step-in") {
        read_step_in(line)
    } else if same(word, b"step-out") {
        read_step_out(line)
    } else if same(word, b"buffer") {
        read_buffer(line, out)
    } else if same(word, b"pm") {
        read_memory(line, out)
    } else if same(word, b"lend") {
        read_lend(line)
    } else if same(word, b"rule") {
        read_rule(line)
    } else {
        read_pipe(word, line)
    }
}

// By the first word: a line that begins no transfer.
#[tactic(auto, unfolding(crate::specs::Lines::call_of))]
pub fn read_call(word: &[u8], line: &[u8], out: &mut [u8; 131072]) -> Call
    ensures { (result ≡ (call_of word.now line.now out.old).call) × (out.new ≡ (call_of word.now line.now out.old).stored) }
{
    read_word(word, line, out).unwrap_or(Call::Wrong)
}

#[tactic(auto, unfolding(crate::specs::Lines::begin_of))]
fn read_begin(word: &[u8], line: &[u8], out: &mut [u8; 131072]) -> Option<Command>
    ensures { (unwrap_or result unread ≡ (begin_of word.now line.now out.old).command) × (out.new ≡ (begin_of word.now line.now out.old).stored) }
{
    // No `match`: the facts of so many words and letters were too many for the last arm to be proved.
    if same(word, b"control-in") {
        read_control_in(line)
    } else if same(word, b"control-out") {
        read_control_out(line, out)
    } else if same(word, b"control-none") {
        read_control_none(line)
    } else if same(word, b"bulk-in") {
        read_bulk_in(line)
    } else if same(word, b"bulk-out") {
        read_bulk_out(line, out)
    } else {
        Some(Command::Other(read_call(word, line, out)))
    }
}

// Whether a line is empty or begins with `#`.
pub fn is_skipped(line: &[u8]) -> bool
    ensures { result ≡ is_skipped line.now }
{
    matches!(line, [] | [b'#', ..])
}

// What a line without its LF asks for. Its BYTES come at the start of those lent, which stay as they are where it has none.
#[tactic(auto, unfolding(crate::specs::Lines::line_of))]
pub fn parse(line: &[u8], out: &mut [u8; 131072]) -> Command
    ensures { (result ≡ (line_of line.now out.old).command) × (out.new ≡ (line_of line.now out.old).stored) }
{
    if is_skipped(line) {
        return Command::Other(Call::Skipped);
    }
    read_begin(field(line, 0), line, out).unwrap_or(Command::Other(Call::Wrong))
}
