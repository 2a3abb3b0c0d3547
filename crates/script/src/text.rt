// The output's text, put into lent bytes from a place on, each function answering the place after it; or into a `Text`, which keeps its place. A text that doesn't fit is left out.
// Bytes and place stay two parameters of the functions: `Placed` speaks of both.
ghost use Rattle.std.specs.Prelude.{◌≡◌, [], ◌∷◌, ◌+◌, ◌*◌, ◌/◌, ◌%◌, ◌≤◌, ◌<◌, length, take, replicate, SomeIff};
ghost use Rattle.std.proofs.lemmas.List.Edits.{sets};
ghost use Rattle.io.specs.Digits.{hex_digit_ascii as digitText};
ghost use Rattle.script.specs.Text.{Placed, PlacedDecimal, PlacedHex, hex_of, pairs_text};

// The place after n bytes from a place on, if they fit.
fn end_after(out: &[u8], at: usize, n: usize) -> Option<usize>
    ensures { SomeIff result (at + n ≤ length out.now) (at + n) }
{
    at.checked_add(n).filter(|end| *end <= out.len())
}

// The text itself.
pub fn put(out: &mut [u8], at: usize, text: &[u8]) -> usize
    ensures { Placed out.old at text.now out.new result }
{
    let Some(end) = end_after(out, at, text.len()) else {
        return at;
    };
    out[at..end].copy_from_slice(text);
    end
}

// A number in decimal, without padding.
pub fn put_decimal(out: &mut [u8], at: usize, n: u64) -> usize
    ensures { PlacedDecimal out.old at n out.new result }
{
    let mut text = [0u8; 20];
    let k = io::decimal(n, &mut text);
    put(out, at, &text[..k])
}

// `0x` and at least `width` digits.
pub fn put_hex(out: &mut [u8], at: usize, n: u64, width: usize) -> usize
    ensures { PlacedHex out.old at width n out.new result }
{
    let mut text = [0u8; 16];
    let k = io::hex(n, width, &mut text);
    let place = put(out, at, b"0x");
    put(out, place, &text[..k])
}

fn glyph(d: u8) -> u8
    requires { d < 16 }
    ensures { result ≡ digitText d }
{
    char::from_digit(d as u32, 16).unwrap() as u8
}

fn put_byte(out: &mut [u8], at: usize, b: u8)
    requires { at + 2 ≤ length out.old }
    ensures { out.new ≡ sets out.old at (digitText (b / 16) ∷ digitText (b % 16) ∷ []) }
{
    out[at] = glyph(b / 16);
    out[at + 1] = glyph(b % 16);
}

#[tactic(auto, unfolding(crate::specs::Text::hex_of), using(crate::proofs::Placing::hex_put_more))]
fn put_bytes(out: &mut [u8], at: usize, bytes: &[u8])
    requires { at + 2 * length bytes.now ≤ length out.old }
    ensures { out.new ≡ sets out.old at (hex_of bytes.now) }
{
    for (i, b) in bytes.iter().enumerate() {
        put_byte(out, at + 2 * i, *b);
    }
}

// Bytes as hexadecimal pairs, `-` for none.
pub fn put_pairs(out: &mut [u8], at: usize, bytes: &[u8]) -> usize
    ensures { Placed out.old at (pairs_text bytes.now) out.new result }
{
    if bytes.is_empty() {
        return put(out, at, b"-");
    }
    let Some(end) = end_after(out, at, 2 * bytes.len()) else {
        return at;
    };
    put_bytes(out, at, bytes);
    end
}

// Lines that are put together before they are written out: `used` bytes of a room of a fixed size.
#[derive(Drop)]
pub struct Text<const N: usize> {
    pub room: [u8; N],
    pub used: usize,
}

impl<const N: usize> Text<N> {
    // Inlined, so that the room is made in its place.
    #[inline(always)]
    pub fn new() -> Text<N>
        ensures { (result.room ≡ replicate N 0) × (result.used ≡ 0) }
    {
        Text {
            room: [0; N],
            used: 0,
        }
    }

    pub fn put(&mut self, text: &[u8])
        ensures { Placed self.old.room self.old.used text.now self.new.room self.new.used }
    {
        self.used = put(&mut self.room, self.used, text);
    }

    pub fn put_decimal(&mut self, n: u64)
        ensures { PlacedDecimal self.old.room self.old.used n self.new.room self.new.used }
    {
        self.used = put_decimal(&mut self.room, self.used, n);
    }

    pub fn put_hex(&mut self, n: u64, width: usize)
        ensures { PlacedHex self.old.room self.old.used width n self.new.room self.new.used }
    {
        self.used = put_hex(&mut self.room, self.used, n, width);
    }

    pub fn put_pairs(&mut self, bytes: &[u8])
        ensures { Placed self.old.room self.old.used (pairs_text bytes.now) self.new.room self.new.used }
    {
        self.used = put_pairs(&mut self.room, self.used, bytes);
    }

    // The bytes put so far.
    pub fn text(&self) -> &[u8]
        ensures { result.now ≡ take self.now.used self.now.room }
    {
        &self.room[..self.used.min(N)]
    }
}
