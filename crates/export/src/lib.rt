// A record's packets as they stand on the wire: "exported entry by entry".
#![tactic(auto)]

ghost use Rattle.std.specs.Prelude.{◌≡◌, List, [], ◌∷◌, ◌++◌, ℕ, ◌+◌, ◌≤◌, length, drop};
ghost use Rattle.packet.specs.Packet.{token as tokenPacket, payload as dataPacket};
ghost use Rattle.record.specs.Bytes.{encode_element};
ghost use Rattle.record.specs.Grammar.{Bytes};
ghost use Rattle.record.specs.Place.{ElementInRange};
ghost use Rattle.record.specs.Reader.{look};
ghost use Rattle.record.specs.Segments.{Element};
ghost use Rattle.record.specs.Verdict.{Whole};
ghost use Rattle.export.specs.Export.{packets_of, packets_in, encode_packets, export_of};
ghost use Rattle.export.specs.Exported.{Exported, export_reply, export_row, exported_in};
ghost use Rattle.export.specs.Walk.{lengths_at, Put};

use packet::packet::Token;
use packet::writer::{write_data, write_token};
use record::look::{Look, look_at};
use record::reader::check;
use record::refusal::Refusal;

// How many bytes an entry has, and its token and data packet.
#[derive(Clone, Copy)]
pub struct Lengths {
    pub entry: usize,
    pub token: usize,
    pub payload: usize,
}

// Those of the entry at a position, if one stands there.
pub fn lengths_at(s: &[u8], at: usize) -> Option<Lengths>
    ensures { result ≡ lengths_at (look (drop at s.now)) }
{
    match look_at(s, at) {
        Ok(Some(Look::Setup(_, _))) => Some(Lengths {
            entry: 10,
            token: 3,
            payload: 11,
        }),
        Ok(Some(Look::Out(x))) => Some(Lengths {
            entry: 6 + x.length as usize,
            token: 3,
            payload: 3 + x.length as usize,
        }),
        Ok(Some(Look::Failed(_))) => Some(Lengths {
            entry: 5,
            token: 0,
            payload: 0,
        }),
        _ => None,
    }
}

// How many bytes all packets have: a walk of its own, since nothing is stored where they don't fit. An entry's length tells the next position.
#[tactic(auto, using(crate::proofs::Walking::entry_some, crate::proofs::Walking::entry_inside, crate::proofs::Walking::packets_twice))]
fn packets_length(s: &[u8]) -> usize
    ensures { (w : Whole s.now) → result ≡ length (export_of w.ms) }
{
    let mut at: usize = 5;
    let mut n: usize = 0;
    while let Some(l) = lengths_at(s, at) {
        n += l.token + l.payload;
        at += l.entry;
    }
    n
}

// A token and its data packet. The lent bytes and the count of those used stay two parameters, as `write_token` takes them.
fn put_pair(
    kind: Token,
    address: u8,
    endpoint: u8,
    second: bool,
    bytes: &[u8],
    out: &mut [u8],
    used: usize,
) -> usize
    ensures { address ≤ 127 → endpoint ≤ 15 → length bytes.now ≤ 64 → used + (6 + length bytes.now) ≤ length out.old
        → Put (tokenPacket kind address endpoint ∷ dataPacket second bytes.now ∷ []) out.old used result out.new }
{
    let next = write_token(kind, address, endpoint, out, used).unwrap_or(used);
    write_data(second, bytes, out, next).unwrap_or(next)
}

// The packets of the entry at a position.
fn put_entry(s: &[u8], at: usize, out: &mut [u8], used: usize) -> usize
    requires { at ≤ length s.now }
    ensures { (m : Element) (post : List ℕ) → ElementInRange m → drop at s.now ≡ encode_element m ++ post
        → used + length (encode_packets (packets_of m)) ≤ length out.old
        → Put (packets_of m) out.old used result out.new }
{
    let Ok(Some(entry)) = look_at(s, at) else {
        return used;
    };
    match entry {
        Look::Setup(a, _) => put_pair(Token::Setup, a, 0, false, &s[at + 2..at + 10], out, used),
        Look::Out(x) => put_pair(
            Token::Out,
            x.address,
            x.endpoint,
            x.pid,
            &s[at + 6..at + 6 + x.length as usize],
            out,
            used,
        ),
        Look::Failed(_) => used,
    }
}

// The packets of all entries. As above, an entry's length tells the next position.
#[tactic(auto, using(crate::proofs::Walking::entry_some, crate::proofs::Walking::entry_inside, crate::proofs::Walking::packets_twice))]
fn put_packets(s: &[u8], out: &mut [u8]) -> usize
    ensures { (w : Whole s.now) → length (export_of w.ms) ≤ length out.old → Put (packets_in w.ms) out.old 0 result out.new }
{
    let mut at: usize = 5;
    let mut used: usize = 0;
    while let Some(l) = lengths_at(s, at) {
        used = put_entry(s, at, out, used);
        at += l.entry;
    }
    used
}

// A record that the reader accepts.
fn export_whole(s: &[u8], out: &mut [u8]) -> Result<usize, Refusal>
    ensures { (w : Whole s.now)
        → (export_reply result ≡ export_row w.ms (length out.old)) × (out.new ≡ exported_in w.ms out.old) }
{
    let n = packets_length(s);
    if out.len() < n {
        return Err(Refusal::Room);
    }
    Ok(put_packets(s, out))
}

// Writes the packets of a record's entries, one after another from the first lent byte on.
pub fn export(s: &[u8], out: &mut [u8]) -> Result<usize, Refusal>
    ensures { Bytes s.now → Exported s.now out.old result out.new }
{
    check(s)?;
    export_whole(s, out)
}
