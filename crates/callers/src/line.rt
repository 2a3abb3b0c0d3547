// A line of the input: a coming, a look, a start, a frame, the shares, or a line of the replay script that begins no transfer.
ghost use Rattle.std.specs.Prelude.{◌≡◌, unwrap_or};
ghost use Rattle.callers.specs.Lines.{unread, coming_of, come_of, start_of, start_bulk_in_of, frame_of, shares_of, word_of, line_of};

use script::begins::{read_bulk_length, read_control, read_control_length};
use script::bytes::LONGEST;
use script::command::{Bulk, Call, Control};
use script::field::same;
use script::line::{is_skipped, read_call};
use script::typed::{after_field, byte_at, bytes_at, field, fields, length_at, word_at};
use transfers::host_controller::DataPhase;
use transfers::wire::Direction;

// The starts, by what they start.
#[derive(Clone, Copy)]
pub enum Kind {
    Control,
    BulkIn,
    BulkOut,
}

// A coming has CALLER first, and LEN as its `count`. A start has LEN, or how many bytes BYTES has; the bytes stand at the start of those lent.
// The shares are those of callers 0 to 7.
#[derive(Clone, Copy)]
pub enum Command {
    ComeControl(u8, DataPhase, Control),
    ComeBulk(u8, Direction, Bulk),
    Look,
    Start(Kind, usize),
    Frame(u32),
    Shares([u32; 8]),
    Other(Call),
}

// A begin by its word, with LEN for its bytes.
#[tactic(auto, unfolding(crate::specs::Lines::coming_of))]
fn read_coming(caller: u8, word: &[u8], line: &[u8]) -> Option<Command>
    ensures { unwrap_or result unread ≡ coming_of caller word.now line.now }
{
    if same(word, b"control-in") {
        let c = read_control_length(line)?;
        Some(Command::ComeControl(caller, DataPhase::In, c))
    } else if same(word, b"control-out") {
        let c = read_control_length(line)?;
        Some(Command::ComeControl(caller, DataPhase::Out, c))
    } else if same(word, b"control-none") {
        let c = read_control(line, 5)?;
        Some(Command::ComeControl(caller, DataPhase::None, c))
    } else if same(word, b"bulk-in") {
        let b = read_bulk_length(line)?;
        Some(Command::ComeBulk(caller, Direction::In, b))
    } else if same(word, b"bulk-out") {
        let b = read_bulk_length(line)?;
        Some(Command::ComeBulk(caller, Direction::Out, b))
    } else {
        None
    }
}

// `come CALLER`, and a begin.
#[tactic(auto, unfolding(crate::specs::Lines::come_of))]
fn read_come(line: &[u8]) -> Option<Command>
    ensures { unwrap_or result unread ≡ come_of line.now }
{
    let caller = byte_at(line, 1)?;
    let begin = after_field(after_field(line));
    read_coming(caller, field(begin, 0), begin)
}

// `start-control BYTES`, `start-bulk-out BYTES`.
#[tactic(auto, unfolding(crate::specs::Lines::start_of))]
fn read_start(kind: Kind, line: &[u8], out: &mut [u8; 131072]) -> Option<Command>
    ensures { (unwrap_or result unread ≡ (start_of kind line.now out.old).command) × (out.new ≡ (start_of kind line.now out.old).stored) }
{
    if fields(line) != 2 {
        return None;
    }
    Some(Command::Start(kind, bytes_at(line, 1, out)?))
}

// `start-bulk-in LEN`. The readers around it stay: one over them would take what reads the field as a closure, for three lines each.
#[tactic(auto, unfolding(crate::specs::Lines::start_bulk_in_of))]
fn read_start_bulk_in(line: &[u8]) -> Option<Command>
    ensures { unwrap_or result unread ≡ start_bulk_in_of line.now }
{
    if fields(line) != 2 {
        return None;
    }
    Some(Command::Start(Kind::BulkIn, length_at(line, 1, LONGEST)?))
}

// `frame N`.
#[tactic(auto, unfolding(crate::specs::Lines::frame_of))]
fn read_frame(line: &[u8]) -> Option<Command>
    ensures { unwrap_or result unread ≡ frame_of line.now }
{
    if fields(line) != 2 {
        return None;
    }
    Some(Command::Frame(word_at(line, 1)?))
}

// `shares S0 S1 S2 S3 S4 S5 S6 S7`.
#[tactic(auto, unfolding(crate::specs::Lines::shares_of))]
fn read_shares(line: &[u8]) -> Option<Command>
    ensures { unwrap_or result unread ≡ shares_of line.now }
{
    if fields(line) != 9 {
        return None;
    }
    Some(Command::Shares([
        word_at(line, 1)?,
        word_at(line, 2)?,
        word_at(line, 3)?,
        word_at(line, 4)?,
        word_at(line, 5)?,
        word_at(line, 6)?,
        word_at(line, 7)?,
        word_at(line, 8)?,
    ]))
}

// By the first word: comings, starts, frame and shares; `look` stands alone on its line, any other line is the replay script's.
#[tactic(auto, unfolding(crate::specs::Lines::word_of))]
fn read_word(word: &[u8], line: &[u8], out: &mut [u8; 131072]) -> Option<Command>
    ensures { (unwrap_or result unread ≡ (word_of word.now line.now out.old).command) × (out.new ≡ (word_of word.now line.now out.old).stored) }
{
    if same(word, b"come") {
        read_come(line)
    } else if same(word, b"start-control") {
        read_start(Kind::Control, line, out)
    } else if same(word, b"start-bulk-in") {
        read_start_bulk_in(line)
    } else if same(word, b"start-bulk-out") {
        read_start(Kind::BulkOut, line, out)
    } else if same(word, b"frame") {
        read_frame(line)
    } else if same(word, b"shares") {
        read_shares(line)
    } else if same(line, b"look") {
        Some(Command::Look)
    } else {
        Some(Command::Other(read_call(word, line, out)))
    }
}

// What a line without its LF asks for. `script`'s `parse` is alike but for the commands that it answers: one over both would take the reading of a word as a closure. Its BYTES come at the start of those lent, which stay as they are where it has none.
#[tactic(auto, unfolding(crate::specs::Lines::line_of))]
pub fn parse(line: &[u8], out: &mut [u8; 131072]) -> Command
    ensures { (result ≡ (line_of line.now out.old).command) × (out.new ≡ (line_of line.now out.old).stored) }
{
    if is_skipped(line) {
        return Command::Other(Call::Skipped);
    }
    read_word(field(line, 0), line, out).unwrap_or(Command::Other(Call::Wrong))
}
