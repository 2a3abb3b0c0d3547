// What the listings print alike. `print_text`, `print_decimal`, `print_number` and `print_byte` are one `write!` or `write_all` each: docs/CONTRACTS.md promises what each function here appends.
#![tactic(auto)]

ghost use Rattle.std.specs.Prelude.{Some, ◌∷◌, ◌++◌, OnOk, codes};
ghost use Rattle.std.specs.Fmt.{decimal};
ghost use Rattle.std.specs.Io.KnownBytes.{Appends};
ghost use Rattle.printing.specs.Hex.{hex_text, two_digits};

use std::io::Write;
use std::{fmt, io};

// Bytes as two digits each, `-` for none.
#[derive(Clone, Copy)]
pub struct Hex<'a>(pub &'a [u8]);

impl fmt::Display for Hex<'_> {
    ghost output = { λ hex. Some (hex_text hex.0.now) };

    fn fmt<W: fmt::Write>(&self, f: &mut fmt::Formatter<W>) -> fmt::Result {
        if self.0.is_empty() {
            return f.write_str("-");
        }
        for &b in self.0 {
            write!(f, "{b:02x}")?;
        }
        Ok(())
    }
}

pub fn print_text<W: Write>(out: &mut W, text: &[u8]) -> io::Result<()>
    ensures { OnOk result (Appends (W.contents out.old) (W.contents out.new) text.now) }
{
    out.write_all(text)
}

// A number in decimal digits.
pub fn print_decimal<W: Write>(out: &mut W, n: u64) -> io::Result<()>
    ensures { OnOk result (Appends (W.contents out.old) (W.contents out.new) (decimal n)) }
{
    write!(out, "{n}")
}

// A space and a number.
pub fn print_number<W: Write>(out: &mut W, n: usize) -> io::Result<()>
    ensures { OnOk result (Appends (W.contents out.old) (W.contents out.new) (32 ∷ decimal n)) }
{
    write!(out, " {n}")
}

// Two digits.
#[tactic(auto, using(std::proofs::lemmas::Fmt::hex_byte))]
pub fn print_byte<W: Write>(out: &mut W, b: u8) -> io::Result<()>
    ensures { OnOk result (Appends (W.contents out.old) (W.contents out.new) (two_digits b)) }
{
    write!(out, "{b:02x}")
}

// Why nothing more is listed.
pub fn print_refused<W: Write>(out: &mut W, n: u8) -> io::Result<()>
    ensures { OnOk result (Appends (W.contents out.old) (W.contents out.new) (codes "refused " ++ decimal n ++ codes "\n")) }
{
    writeln!(out, "refused {n}")
}

// A line of the input that can't be read, by its number.
pub fn print_unreadable<W: Write>(out: &mut W, line: usize) -> io::Result<()>
    ensures { OnOk result (Appends (W.contents out.old) (W.contents out.new) (codes "line " ++ decimal line ++ codes ": not a line of a script\n")) }
{
    writeln!(out, "line {line}: not a line of a script")
}

// The last line of a whole listing.
pub fn print_end<W: Write>(out: &mut W, count: usize) -> io::Result<()>
    ensures { OnOk result (Appends (W.contents out.old) (W.contents out.new) (codes "end " ++ decimal count ++ codes "\n")) }
{
    writeln!(out, "end {count}")
}
