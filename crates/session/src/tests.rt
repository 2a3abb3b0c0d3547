// What no clause says of what prints to any writer: the text of a number, of a long answer and of a block, and what a failure leaves out.
use crate::player::{Play, play_all};
use crate::print::print_answer;
use std::io::{Cursor, ErrorKind, Read, Write};
use std::test::Fail;
use std::{fmt, io};
use transfers::refusal::Refusal;

// So many letters.
#[derive(Clone, Copy)]
struct Letters(usize);

impl fmt::Display for Letters {
    fn fmt<W: fmt::Write>(&self, f: &mut fmt::Formatter<W>) -> fmt::Result {
        for _ in 0..self.0 {
            f.write_str("x")?;
        }
        Ok(())
    }
}

// Counts what is written to it, up to a number that it takes.
#[derive(Drop)]
struct Count {
    bytes: usize,
    taken: usize,
}

impl Write for Count {
    fn write(&mut self, buf: &[u8]) -> io::Result<usize> {
        let bytes = self.bytes.saturating_add(buf.len());
        if bytes > self.taken {
            return Err(io::Error::from(ErrorKind::WriteZero));
        }
        self.bytes = bytes;
        Ok(buf.len())
    }

    fn flush(&mut self) -> io::Result<()> {
        Ok(())
    }
}

// Gives a text, then fails.
#[derive(Drop)]
struct CutOff<'a>(&'a [u8]);

impl Read for CutOff<'_> {
    fn read(&mut self, buf: &mut [u8]) -> io::Result<usize> {
        let n = self.0.len().min(buf.len());
        if n == 0 {
            return Err(io::Error::from(ErrorKind::UnexpectedEof));
        }
        buf[..n].copy_from_slice(&self.0[..n]);
        self.0 = &self.0[n..];
        Ok(n)
    }
}

// Repeats a line with its number, and fails at `stop`.
#[derive(Drop)]
struct Echo {
    last: usize,
}

impl Play for Echo {
    fn play<W: Write>(&mut self, number: usize, text: &[u8], out: &mut W) -> io::Result<()> {
        self.last = number;
        if text == b"stop".as_slice() {
            return Err(io::Error::from(ErrorKind::Other));
        }
        out.write_all(text)?;
        writeln!(out, " {number}\n.")
    }
}

fn written<'a, const N: usize>(out: &'a Cursor<[u8; N]>) -> &'a [u8] {
    out.get_ref()
        .get(..out.position() as usize)
        .unwrap_or_default()
}

#[test]
fn answers_any_writer(rt: HostRuntime) -> Result<(), Fail> {
    let mut out = Cursor::new([0u8; 64]);
    print_answer(&mut out, Ok::<u32, Refusal>(7))?;
    print_answer(&mut out, Ok::<&str, Refusal>("begun"))?;
    print_answer(&mut out, Err::<u32, Refusal>(Refusal::State))?;
    let want = b"answer 7\nanswer begun\nanswer refused 16\n";
    assert_eq!(rt; written(&out), want.as_slice());
    // Of an answer longer than an `Output` nothing is left out.
    let mut count = Count {
        bytes: 0,
        taken: 1_048_585,
    };
    print_answer(&mut count, Ok::<Letters, Refusal>(Letters(1_048_577)))?;
    assert_eq!(rt; count.bytes, 1_048_585);
    assert!(rt; print_answer(&mut count, Ok::<u32, Refusal>(7)).is_err());
    Ok(())
}

#[test]
fn plays_to_any_writer(rt: HostRuntime) -> Result<(), Fail> {
    let mut echo = Echo { last: 0 };
    let mut out = Cursor::new([0u8; 64]);
    play_all(&mut echo, &mut b"one\ntwo".as_slice(), &mut out)?;
    assert_eq!(rt; written(&out), b"one 1\n.\ntwo 2\n.\n".as_slice());
    let mut out = Cursor::new([0u8; 64]);
    let long = [b'x'; 300_001];
    play_all(&mut echo, &mut long.as_slice(), &mut out)?;
    assert_eq!(rt;
        written(&out),
        b"line 1: not a line of a script\n.\n".as_slice()
    );
    Ok(())
}

#[test]
fn stops_where_it_fails(rt: HostRuntime) {
    let mut echo = Echo { last: 0 };
    let mut out = Cursor::new([0u8; 64]);
    let stopped = play_all(&mut echo, &mut b"one\nstop\ntwo\n".as_slice(), &mut out);
    assert!(rt; stopped.is_err());
    assert_eq!(rt; echo.last, 2);
    assert_eq!(rt; written(&out), b"".as_slice());
    let mut out = Cursor::new([0u8; 64]);
    assert!(rt; play_all(&mut echo, &mut CutOff(b"one\ntwo\nth"), &mut out).is_err());
    assert_eq!(rt; written(&out), b"one 1\n.\ntwo 2\n.\n".as_slice());
    let mut full = Count { bytes: 0, taken: 5 };
    assert!(rt; play_all(&mut echo, &mut b"one\n".as_slice(), &mut full).is_err());
    assert_eq!(rt; full.bytes, 0);
}
