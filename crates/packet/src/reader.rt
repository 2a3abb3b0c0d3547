// The reader: what packet a byte string is, or why it is none.
ghost use Rattle.std.specs.Prelude.{◌≡◌};
ghost use Rattle.packet.specs.Reading.{read_rest, read_of, data_in, eleven_in, Answers};
ghost use Rattle.packet.specs.declared.packet.Kind.TheVariants.{Token as token_kind, Data as data_kind, Handshake as handshake_kind};

use crate::crc::{crc16, with_crc5};
use crate::packet::{Handshake, Kind, MAX_DATA, Token};
use crate::refusal::Refusal;

// A token's address and endpoint, SOF's frame number, DATA0 (false) or DATA1, whose bytes `data_of` hands out, or a handshake.
#[derive(Clone, Copy)]
pub enum Reading {
    Token(Token, u8, u8),
    Sof(u16),
    Data(bool),
    Handshake(Handshake),
}

// Eleven bits, if two bytes have them and their CRC5.
fn read_eleven(rest: &[u8]) -> Result<u16, Refusal>
    ensures { result ≡ eleven_in rest.now }
{
    let [low, high] = rest else {
        return Err(Refusal::Length);
    };
    let w = u16::from_le_bytes([*low, *high]);
    if w != with_crc5(w % 2048) {
        return Err(Refusal::Crc);
    }
    Ok(w % 2048)
}

fn read_token(kind: Token, rest: &[u8]) -> Result<Reading, Refusal>
    ensures { Answers (read_rest (token_kind kind) rest.now) result }
{
    let v = read_eleven(rest)?;
    Ok(Reading::Token(kind, (v % 128) as u8, (v / 128) as u8))
}

fn read_data(second: bool, rest: &[u8]) -> Result<Reading, Refusal>
    ensures { Answers (read_rest (data_kind second) rest.now) result }
{
    let Some((bytes, crc)) = rest.split_last_chunk::<2>() else {
        return Err(Refusal::Length);
    };
    if MAX_DATA < bytes.len() {
        return Err(Refusal::Length);
    }
    if u16::from_le_bytes(*crc) != crc16(bytes) {
        return Err(Refusal::Crc);
    }
    Ok(Reading::Data(second))
}

fn read_handshake(kind: Handshake, rest: &[u8]) -> Result<Reading, Refusal>
    ensures { Answers (read_rest (handshake_kind kind) rest.now) result }
{
    if !rest.is_empty() {
        return Err(Refusal::Length);
    }
    Ok(Reading::Handshake(kind))
}

// What packet the bytes are.
#[tactic(auto, unfolding(crate::specs::Reading::read_of))]
pub fn read(bytes: &[u8]) -> Result<Reading, Refusal>
    ensures { Answers (read_of bytes.now) result }
{
    let Some((first, rest)) = bytes.split_first() else {
        return Err(Refusal::Pid);
    };
    match Kind::try_from(*first)? {
        Kind::Token(token) => read_token(token, rest),
        Kind::Sof => Ok(Reading::Sof(read_eleven(rest)?)),
        Kind::Data(second) => read_data(second, rest),
        Kind::Handshake(handshake) => read_handshake(handshake, rest),
    }
}

// The data of a data packet, as a part of its bytes; empty for every other input.
#[tactic(auto, using(crate::proofs::Answered::hands_data))]
pub fn data_of<'a>(bytes: &'a [u8]) -> &'a [u8]
    ensures { result.now ≡ data_in (read_of bytes.now) }
{
    match read(bytes) {
        Ok(Reading::Data(_)) => &bytes[1..bytes.len() - 2],
        _ => &bytes[..0],
    }
}
