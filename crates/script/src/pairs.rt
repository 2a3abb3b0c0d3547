// Hexadecimal digits of either case in pairs, a byte each.
ghost use Rattle.std.specs.Prelude.{◌≡◌, true, false, ◌&&◌, ◌+◌, ◌*◌, ◌/◌, ◌%◌, ◌<◌, eqb, length, get_or, MatchOption};
ghost use Rattle.script.specs.Numbers.{digit_of, all_digits};
ghost use Rattle.script.specs.Bytes.{pairs_of};
ghost use Rattle.script.specs.Typed.{half_pair};

#[derive(Drop)]
pub(crate) struct Pairs<'a> {
    pub(crate) digits: &'a [u8],
    ghost hex: { all_digits 16 digits.now ≡ true },
    ghost even: { length digits.now % 2 ≡ 0 },
}

// Whether all bytes are hexadecimal digits.
fn all_hex(text: &[u8]) -> bool
    ensures { result ≡ all_digits 16 text.now }
{
    text.iter().all(|b| b.is_ascii_hexdigit())
}

// The value of a digit that is hexadecimal.
#[tactic(auto, unfolding(crate::specs::Numbers::digit_of))]
fn nibble(b: u8) -> u8
    requires { digit_of b < 16 }
    ensures { result ≡ digit_of b }
{
    match b {
        b'0'..=b'9' => b - b'0',
        b'A'..=b'F' => b - b'A' + 10,
        _ => b - b'a' + 10,
    }
}

// The byte of two digits.
fn pair(a: u8, b: u8) -> u8
    requires { (digit_of a < 16) × (digit_of b < 16) }
    ensures { result ≡ digit_of a * 16 + digit_of b }
{
    nibble(a) * 16 + nibble(b)
}

impl<'a> Pairs<'a> {
    // A text as pairs, if it has that form.
    pub(crate) fn read(text: &'a [u8]) -> Option<Pairs<'a>>
        ensures { MatchOption result ((eqb (length text.now % 2) 0 && all_digits 16 text.now) ≡ false) (λ pairs. pairs.digits.now ≡ text.now) }
    {
        if text.len() % 2 != 0 || !all_hex(text) {
            return None;
        }
        Some(Pairs { digits: text })
    }

    // How many there are.
    pub(crate) fn len(&self) -> usize
        ensures { result ≡ length self.now.digits.now / 2 }
    {
        self.digits.len() / 2
    }

    // Byte i.
    #[tactic(auto, using(crate::proofs::Storing::hex_at, crate::proofs::Storing::pairs_at))]
    pub(crate) fn byte(&self, i: usize) -> u8
        requires { 2 * i + 1 < length self.now.digits.now }
        ensures { result ≡ get_or (pairs_of self.now.digits.now) i 0 }
    {
        pair(self.digits[2 * i], self.digits[2 * i + 1])
    }

    // Bytes i and i + 1, the low one first.
    #[tactic(auto, unfolding(crate::specs::Typed::half_pair))]
    pub(crate) fn half(&self, i: usize) -> u16
        requires { 2 * i + 3 < length self.now.digits.now }
        ensures { result ≡ half_pair self.now.digits.now i }
    {
        u16::from_le_bytes([self.byte(i), self.byte(i + 1)])
    }
}
