// A line's fields by what they hold.
ghost use Rattle.std.specs.Prelude.{◌≡◌, length};
ghost use Rattle.script.specs.Parts.{field_of, fields_of, after_field};
ghost use Rattle.script.specs.Typed.{byte_at, half_at, word_at, bit_at, length_at, type_at, setup_of, setup_in, setup_at, count_at, stored_at};

use crate::bytes::bytes;
use crate::command::Setup;
use crate::field::{part, parts, rest};
use crate::number::number;
use crate::pairs::Pairs;

const SPACE: u8 = b' ';

// How many fields a line has.
pub fn fields(line: &[u8]) -> usize
    ensures { result ≡ fields_of line.now }
{
    parts(line, SPACE)
}

// Field number k.
pub fn field(line: &[u8], k: usize) -> &[u8]
    ensures { result.now ≡ field_of line.now k }
{
    part(line, SPACE, k)
}

// What stands after the first field.
pub fn after_field(line: &[u8]) -> &[u8]
    ensures { result.now ≡ after_field line.now }
{
    rest(line, SPACE)
}

// The next five differ in the type that a number is put into. docs/CONTRACTS.md names three of them; one over `TryFrom` would be no plainer, as each would still name its type and its most.

// A number up to 255.
#[tactic(auto, unfolding(crate::specs::Typed::byte_at))]
pub fn byte_at(line: &[u8], k: usize) -> Option<u8>
    ensures { result ≡ byte_at line.now k }
{
    Some(number(field(line, k), 255)? as u8)
}

// A number up to 65,535.
#[tactic(auto, unfolding(crate::specs::Typed::half_at))]
pub fn half_at(line: &[u8], k: usize) -> Option<u16>
    ensures { result ≡ half_at line.now k }
{
    Some(number(field(line, k), 65535)? as u16)
}

// A number up to 4,294,967,295.
#[tactic(auto, unfolding(crate::specs::Typed::word_at))]
pub fn word_at(line: &[u8], k: usize) -> Option<u32>
    ensures { result ≡ word_at line.now k }
{
    number(field(line, k), 0xFFFF_FFFF)
}

// 0 or 1.
#[tactic(auto, unfolding(crate::specs::Typed::bit_at))]
pub(crate) fn bit_at(line: &[u8], k: usize) -> Option<bool>
    ensures { result ≡ bit_at line.now k }
{
    Some(number(field(line, k), 1)? == 1)
}

// A number up to `most`, as a length.
#[tactic(auto, unfolding(crate::specs::Typed::length_at))]
pub fn length_at(line: &[u8], k: usize, most: u32) -> Option<usize>
    ensures { result ≡ length_at line.now k most }
{
    Some(number(field(line, k), most)? as usize)
}

// `variable` is true, `fixed` false.
#[tactic(auto, unfolding(crate::specs::Typed::type_at, crate::specs::Typed::type_in), using(crate::proofs::Walks::words))]
pub(crate) fn type_at(line: &[u8], k: usize) -> Option<bool>
    ensures { result ≡ type_at line.now k }
{
    match field(line, k) {
        b"variable" => Some(true),
        b"fixed" => Some(false),
        _ => None,
    }
}

#[tactic(auto, unfolding(crate::specs::Typed::setup_of))]
fn setup_of(pairs: &Pairs) -> Setup
    requires { length pairs.now.digits.now ≡ 16 }
    ensures { result ≡ setup_of pairs.now.digits.now }
{
    Setup {
        kind: pairs.byte(0),
        request: pairs.byte(1),
        value: pairs.half(2),
        index: pairs.half(4),
        length: pairs.half(6),
    }
}

// 8 bytes as on the wire.
#[tactic(auto, unfolding(crate::specs::Typed::setup_in))]
fn read_setup(text: &[u8]) -> Option<Setup>
    ensures { result ≡ setup_in text.now }
{
    if text.len() != 16 {
        return None;
    }
    Some(setup_of(&Pairs::read(text)?))
}

#[tactic(auto, unfolding(crate::specs::Typed::setup_at))]
pub(crate) fn setup_at(line: &[u8], k: usize) -> Option<Setup>
    ensures { result ≡ setup_at line.now k }
{
    read_setup(field(line, k))
}

// BYTES, put at the start of those lent.
#[tactic(auto, unfolding(crate::specs::Typed::count_at, crate::specs::Typed::stored_at))]
pub fn bytes_at(line: &[u8], k: usize, out: &mut [u8; 131072]) -> Option<usize>
    ensures { (result ≡ count_at line.now k) × (out.new ≡ stored_at out.old line.now k) }
{
    bytes(field(line, k), out)
}
