// Numbers: decimal, or hexadecimal after `0x`.
ghost use Rattle.std.specs.Prelude.{◌≡◌, ◌≤◌, ◌<◌, IfSome, SomeIff};
ghost use Rattle.script.specs.Numbers.{digit_of, value_of, number_of};

// A digit's value, if the byte is a digit of the base.
#[tactic(auto, using(crate::proofs::Spelling::digit_std))]
pub(crate) fn digit(b: u8, base: u32) -> Option<u32>
    requires { (2 ≤ base) × (base ≤ 16) }
    ensures { SomeIff result (digit_of b < base) (digit_of b) }
{
    char::from(b).to_digit(base)
}

// The number that digits of a base spell, if it is at most `most`.
#[tactic(auto, using(crate::proofs::Spelling::value_none, crate::proofs::Spelling::value_bad, crate::proofs::Spelling::value_large, crate::proofs::Spelling::value_whole))]
fn value(digits: &[u8], base: u32, most: u32) -> Option<u32>
    requires { (2 ≤ base) × (base ≤ 16) }
    ensures value { result ≡ value_of base most digits.now }
    ensures bound { IfSome result (λ n. n ≤ most) }
{
    if digits.is_empty() {
        return None;
    }
    let mut n: u64 = 0;
    for b in digits {
        n = n * base as u64 + digit(*b, base)? as u64;
        if n > most as u64 {
            return None;
        }
    }
    Some(n as u32)
}

// The number of a text, if it is one and at most `most`.
#[tactic(auto, unfolding(crate::specs::Numbers::number_of))]
pub(crate) fn number(text: &[u8], most: u32) -> Option<u32>
    ensures value { result ≡ number_of text.now most }
    ensures bound { IfSome result (λ n. n ≤ most) }
{
    match text {
        [b'0', b'x', digits @ ..] => value(digits, 16, most),
        _ => value(text, 10, most),
    }
}
