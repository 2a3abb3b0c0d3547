// The lines of a block.
ghost use Rattle.std.specs.Prelude.{◌++◌, ℕ, List, Option, Some, None, OnOk, IfOk, IfSome, codes};
ghost use Rattle.std.specs.Fmt.{decimal};
ghost use Rattle.std.specs.Io.KnownBytes.{Appends};
ghost use Rattle.session.specs.Prints.{Puts};

use crate::output::{Output, put_number};
use std::fmt::Display;
use std::io;
use std::io::Write;

// What came of a call that isn't refused.
pub trait Came {
    // How its answer's line spells it, where that is said.
    ghost spelling: { Self → Option (List ℕ) } = { λ _. None };

    fn put(self, out: &mut Output)
        ensures { IfSome (spelling self) (λ text. Puts out.old text out.new) };
}

impl Came for &str {
    ghost spelling = { λ word. Some word.now };

    fn put(self, out: &mut Output) {
        out.put(self.as_bytes());
    }
}

// The answer's line: what came of the call, or the refusal's number.
pub fn put_answer<T: Came, E>(out: &mut Output, answer: Result<T, E>)
where
    u8: From<E>,
    ensures { IfOk answer (λ came. IfSome (T.spelling came) (λ text. Puts out.old (codes "answer " ++ text ++ codes "\n") out.new)) }
{
    match answer {
        Ok(came) => {
            out.put(b"answer ");
            came.put(out);
            out.put(b"\n");
        }
        Err(why) => put_refused(out, u8::from(why)),
    }
}

fn put_refused(out: &mut Output, n: u8)
    ensures { Puts out.old (codes "answer refused " ++ decimal n ++ codes "\n") out.new }
{
    out.put(b"answer refused");
    put_number(out, n as u64);
    out.put(b"\n");
}

pub fn print_ok(out: &mut Output)
    ensures { Puts out.old (codes "answer ok\n.\n") out.new }
{
    out.put(b"answer ok\n");
    print_block_end(out);
}

pub fn print_block_end(out: &mut Output)
    ensures { Puts out.old (codes ".\n") out.new }
{
    out.put(b".\n");
}

// The answer's line to any writer, of what is `Display` and of any length.
pub fn print_answer<W: Write, T: Display + Drop, E>(
    out: &mut W,
    answer: Result<T, E>,
) -> io::Result<()>
where
    u8: From<E>,
    ensures { OnOk result (IfOk answer (λ came. IfSome (T.output came) (λ text.
        Appends (W.contents out.old) (W.contents out.new) (codes "answer " ++ text ++ codes "\n")))) }
{
    match answer {
        Ok(came) => writeln!(out, "answer {came}"),
        Err(why) => print_refused(out, u8::from(why)),
    }
}

fn print_refused<W: Write>(out: &mut W, n: u8) -> io::Result<()>
    ensures { OnOk result (Appends (W.contents out.old) (W.contents out.new) (codes "answer refused " ++ decimal n ++ codes "\n")) }
{
    writeln!(out, "answer refused {n}")
}
