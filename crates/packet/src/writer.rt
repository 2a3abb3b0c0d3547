// The writer: a packet is put after the bytes used, or refused. Its answer is how many bytes are used then.
// The lent bytes and the count of those used stay two parameters: `Packets` speaks of any two, a count past the end too.
ghost use Rattle.std.specs.Prelude.{◌≡◌, true, ◌∷◌, ◌+◌, ◌<◌, ◌≤◌, length, MatchResult};
ghost use Rattle.packet.specs.Packet.{Packet, token, sof, payload, handshake, in_range, encode, pid_of, pid_byte, checked, low};
ghost use Rattle.packet.specs.Writing.{Wrote};

use crate::crc::{crc16, with_crc5};
use crate::packet::{Handshake, Kind, MAX_DATA, Token};
use crate::refusal::Refusal;

const MAX_ADDRESS: u8 = 127;

const MAX_ENDPOINT: u8 = 15;

const MAX_FRAME: u16 = 2047;

// Where n bytes after those used end.
fn end_of(room: usize, used: usize, n: usize) -> Result<usize, Refusal>
    ensures { MatchResult result (λ end. (end ≡ used + n) × (end ≤ room)) (λ why. (why ≡ Refusal.Room) × (room < used + n)) }
{
    match used.checked_add(n) {
        Some(end) if end <= room => Ok(end),
        _ => Err(Refusal::Room),
    }
}

// A PID and eleven bits with their CRC5.
#[tactic(auto, using(crate::proofs::Written::no_room, crate::proofs::Written::wrote, pool::proofs::Stores::put_sets))]
fn write_eleven(kind: Kind, v: u16, out: &mut [u8], used: usize) -> Result<usize, Refusal>
    requires { v ≤ 2047 }
    ensures { (p : Packet) → in_range p ≡ true → encode p ≡ pid_byte (pid_of kind) ∷ low (checked v) → Wrote p out.old used result out.new }
{
    let end = end_of(out.len(), used, 3)?;
    let [low, high] = with_crc5(v).to_le_bytes();
    out[used..end].copy_from_slice(&[u8::from(kind), low, high]);
    Ok(end)
}

// OUT, IN or SETUP with an address and an endpoint.
pub fn write_token(
    kind: Token,
    address: u8,
    endpoint: u8,
    out: &mut [u8],
    used: usize,
) -> Result<usize, Refusal>
    ensures { Wrote (token kind address endpoint) out.old used result out.new }
{
    if MAX_ADDRESS < address || MAX_ENDPOINT < endpoint {
        return Err(Refusal::Field);
    }
    let v = address as u16 + 128 * endpoint as u16;
    write_eleven(Kind::Token(kind), v, out, used)
}

// SOF with a frame number.
pub fn write_sof(frame: u16, out: &mut [u8], used: usize) -> Result<usize, Refusal>
    ensures { Wrote (sof frame) out.old used result out.new }
{
    if MAX_FRAME < frame {
        return Err(Refusal::Field);
    }
    write_eleven(Kind::Sof, frame, out, used)
}

// DATA1 where `second`, else DATA0, with its bytes.
#[tactic(auto, using(crate::proofs::Written::no_room), unfolding(crate::specs::Packet::encode))]
pub fn write_data(second: bool, bytes: &[u8], out: &mut [u8], used: usize) -> Result<usize, Refusal>
    ensures { Wrote (payload second bytes.now) out.old used result out.new }
{
    let n = bytes.len();
    if MAX_DATA < n {
        return Err(Refusal::Field);
    }
    let end = end_of(out.len(), used, 3 + n)?;
    let crc = end - 2;
    out[used] = u8::from(Kind::Data(second));
    out[used + 1..crc].copy_from_slice(bytes);
    out[crc..end].copy_from_slice(&crc16(bytes).to_le_bytes());
    Ok(end)
}

// ACK, NAK or STALL.
#[tactic(auto, using(crate::proofs::Written::no_room, crate::proofs::Written::wrote), unfolding(crate::specs::Packet::encode))]
pub fn write_handshake(kind: Handshake, out: &mut [u8], used: usize) -> Result<usize, Refusal>
    ensures { Wrote (handshake kind) out.old used result out.new }
{
    let end = end_of(out.len(), used, 1)?;
    out[used] = u8::from(Kind::Handshake(kind));
    Ok(end)
}
