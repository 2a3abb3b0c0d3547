// What blocks are printed to until they are written out. Printing can't fail: a text that no longer fits is left out.
ghost use Rattle.std.specs.Prelude.{◌++◌, codes};
ghost use Rattle.std.specs.Fmt.{decimal};
ghost use Rattle.session.specs.Prints.{Puts};

use script::text::Text;

pub type Output = Text<1048576>;

// A space and a number.
pub fn put_number(out: &mut Output, n: u64)
    ensures { Puts out.old (codes " " ++ decimal n) out.new }
{
    out.put(b" ");
    out.put_decimal(n);
}

// A space and a word of 32 bits.
pub(crate) fn put_word(out: &mut Output, word: u32) {
    out.put(b" ");
    out.put_hex(word as u64, 8);
}
