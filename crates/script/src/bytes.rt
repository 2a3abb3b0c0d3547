// BYTES: hexadecimal pairs, `-` for none, or `seq:LEN:START:STEP`.
// They stand at the start of memory that the caller lends, with their count beside it: nothing here allocates.
ghost use Rattle.std.specs.Prelude.{◌≡◌, ◌≤◌, length};
ghost use Rattle.std.proofs.lemmas.List.Edits.{sets};
ghost use Rattle.script.specs.Bytes.{pairs_of, hex_bytes, seq_at, seq_from, seq_bytes, is_seq, bytes_of, count_in, stored_in};

use crate::field::{part, parts};
use crate::number::number;
use crate::pairs::Pairs;

// LEN and the count of BYTES are at most this.
pub const LONGEST: u32 = 131072;

const COLON: u8 = b':';

fn put_pairs(pairs: &Pairs, out: &mut [u8; 131072]) -> usize
    requires { length pairs.now.digits.now ≤ 262144 }
    ensures { (result ≡ length (pairs_of pairs.now.digits.now)) × (out.new ≡ sets out.old 0 (pairs_of pairs.now.digits.now)) }
{
    let n = pairs.len();
    for (i, byte) in out[..n].iter_mut().enumerate() {
        *byte = pairs.byte(i);
    }
    n
}

#[tactic(auto, unfolding(crate::specs::Bytes::hex_bytes, crate::specs::Bytes::count_in, crate::specs::Bytes::stored_in))]
fn hex_bytes(text: &[u8], out: &mut [u8; 131072]) -> Option<usize>
    ensures { (result ≡ count_in (hex_bytes text.now)) × (out.new ≡ stored_in out.old (hex_bytes text.now)) }
{
    if text.is_empty() || 262144 < text.len() {
        return None;
    }
    Some(put_pairs(&Pairs::read(text)?, out))
}

fn seq_at(start: u8, step: u8, i: usize) -> u8
    requires { i ≤ 131072 }
    ensures { result ≡ seq_at start step i }
{
    ((start as usize + step as usize * i + i / 256) % 256) as u8
}

fn put_seq(n: usize, start: u8, step: u8, out: &mut [u8; 131072])
    requires { n ≤ 131072 }
    ensures { out.new ≡ sets out.old 0 (seq_from start step 0 n) }
{
    for (i, byte) in out[..n].iter_mut().enumerate() {
        *byte = seq_at(start, step, i);
    }
}

#[tactic(auto, unfolding(crate::specs::Bytes::seq_bytes, crate::specs::Bytes::seq_then, crate::specs::Bytes::count_in, crate::specs::Bytes::stored_in), using(crate::proofs::Storing::seq_length))]
fn seq_bytes(text: &[u8], out: &mut [u8; 131072]) -> Option<usize>
    ensures { (result ≡ count_in (seq_bytes text.now)) × (out.new ≡ stored_in out.old (seq_bytes text.now)) }
{
    let n = number(part(text, COLON, 1), LONGEST)? as usize;
    let start = number(part(text, COLON, 2), 255)? as u8;
    let step = number(part(text, COLON, 3), 255)? as u8;
    put_seq(n, start, step, out);
    Some(n)
}

#[tactic(auto, using(crate::proofs::Walks::seq_begins))]
fn is_seq(text: &[u8]) -> bool
    ensures { result ≡ is_seq text.now }
{
    text.starts_with(b"seq:") && parts(text, COLON) == 4
}

// The bytes of a text, put at the start of those lent. A text that is no BYTES leaves them as they are.
#[tactic(auto, unfolding(crate::specs::Bytes::bytes_of, crate::specs::Bytes::count_in, crate::specs::Bytes::stored_in), using(crate::proofs::Walks::words))]
pub fn bytes(text: &[u8], out: &mut [u8; 131072]) -> Option<usize>
    ensures { (result ≡ count_in (bytes_of text.now)) × (out.new ≡ stored_in out.old (bytes_of text.now)) }
{
    match text {
        b"-" => Some(0),
        _ if is_seq(text) => seq_bytes(text, out),
        _ => hex_bytes(text, out),
    }
}
