// A line of the input.
ghost use Rattle.std.specs.Prelude.{◌≡◌};
ghost use Rattle.packets.specs.Lines.{token_of, sof_of, data_of, lend_of, packet_of, alone_of, other_of, word_of, line_of};

use input::Unreadable;
use packet::packet::{Handshake, Token};
use script::bytes::bytes;
use script::field::same;
use script::line::is_skipped;
use script::typed::{byte_at, bytes_at, field, fields, half_at, length_at};

// What a line asks for: `Read` and `WriteData` have their bytes at the start of those lent.
#[derive(Clone, Copy)]
pub enum Command {
    Lend(usize),
    Read(usize),
    WriteToken(Token, u8, u8),
    WriteSof(u16),
    WriteData(bool, usize),
    WriteHandshake(Handshake),
}

// `out A E`, `in A E`, `setup A E`.
#[tactic(auto, unfolding(crate::specs::Lines::token_of))]
fn read_token(kind: Token, line: &[u8]) -> Option<Command>
    ensures { result ≡ token_of kind line.now }
{
    if fields(line) != 3 {
        return None;
    }
    let address = byte_at(line, 1)?;
    let endpoint = byte_at(line, 2)?;
    Some(Command::WriteToken(kind, address, endpoint))
}

// `sof N`.
#[tactic(auto, unfolding(crate::specs::Lines::sof_of))]
fn read_sof(line: &[u8]) -> Option<Command>
    ensures { result ≡ sof_of line.now }
{
    if fields(line) != 2 {
        return None;
    }
    Some(Command::WriteSof(half_at(line, 1)?))
}

// `data0 BYTES`, `data1 BYTES`.
#[tactic(auto, unfolding(crate::specs::Lines::data_of))]
fn read_data(second: bool, line: &[u8], out: &mut [u8; 131072]) -> Option<Command>
    ensures { (result ≡ (data_of second line.now out.old).command) × (out.new ≡ (data_of second line.now out.old).stored) }
{
    if fields(line) != 2 {
        return None;
    }
    Some(Command::WriteData(second, bytes_at(line, 1, out)?))
}

// `lend N`.
#[tactic(auto, unfolding(crate::specs::Lines::lend_of))]
fn read_lend(line: &[u8]) -> Option<Command>
    ensures { result ≡ lend_of line.now }
{
    if fields(line) != 2 {
        return None;
    }
    Some(Command::Lend(length_at(line, 1, 67)?))
}

// A packet's bytes.
#[tactic(auto, unfolding(crate::specs::Lines::packet_of))]
fn read_bytes(line: &[u8], out: &mut [u8; 131072]) -> Option<Command>
    ensures { (result ≡ (packet_of line.now out.old).command) × (out.new ≡ (packet_of line.now out.old).stored) }
{
    Some(Command::Read(bytes(line, out)?))
}

// `ack`, `nak`, `stall`; any other line of one word is bytes.
// No `match` on words here and below: the facts of their letters are too many for the last arm to be proved.
#[tactic(auto, unfolding(crate::specs::Lines::alone_of))]
fn read_alone(line: &[u8], out: &mut [u8; 131072]) -> Option<Command>
    ensures { (result ≡ (alone_of line.now out.old).command) × (out.new ≡ (alone_of line.now out.old).stored) }
{
    if same(line, b"ack") {
        Some(Command::WriteHandshake(Handshake::Ack))
    } else if same(line, b"nak") {
        Some(Command::WriteHandshake(Handshake::Nak))
    } else if same(line, b"stall") {
        Some(Command::WriteHandshake(Handshake::Stall))
    } else {
        read_bytes(line, out)
    }
}

// By the first word: data, SOF and `lend`; any other stands alone.
#[tactic(auto, unfolding(crate::specs::Lines::other_of))]
fn read_other(word: &[u8], line: &[u8], out: &mut [u8; 131072]) -> Option<Command>
    ensures { (result ≡ (other_of word.now line.now out.old).command) × (out.new ≡ (other_of word.now line.now out.old).stored) }
{
    if same(word, b"data0") {
        read_data(false, line, out)
    } else if same(word, b"data1") {
        read_data(true, line, out)
    } else if same(word, b"sof") {
        read_sof(line)
    } else if same(word, b"lend") {
        read_lend(line)
    } else {
        read_alone(line, out)
    }
}

// By the first word: tokens.
#[tactic(auto, unfolding(crate::specs::Lines::word_of))]
fn read_word(word: &[u8], line: &[u8], out: &mut [u8; 131072]) -> Option<Command>
    ensures { (result ≡ (word_of word.now line.now out.old).command) × (out.new ≡ (word_of word.now line.now out.old).stored) }
{
    if same(word, b"out") {
        read_token(Token::Out, line)
    } else if same(word, b"in") {
        read_token(Token::In, line)
    } else if same(word, b"setup") {
        read_token(Token::Setup, line)
    } else {
        read_other(word, line, out)
    }
}

// What a line without its LF asks for, nothing if it is skipped. Its BYTES come at the start of those lent, which stay as they are where it has none.
#[tactic(auto, unfolding(crate::specs::Lines::line_of))]
pub fn parse(line: &[u8], out: &mut [u8; 131072]) -> Result<Option<Command>, Unreadable>
    ensures { (result ≡ (line_of line.now out.old).command) × (out.new ≡ (line_of line.now out.old).stored) }
{
    if is_skipped(line) {
        return Ok(None);
    }
    let command = read_word(field(line, 0), line, out).ok_or(Unreadable)?;
    Ok(Some(command))
}
