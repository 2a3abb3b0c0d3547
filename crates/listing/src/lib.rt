// A record's listing, as document 01 shows it.
#![tactic(auto)]

ghost use Rattle.std.specs.Prelude.{◌≡◌, ◌≤◌, ◌<◌, length};
ghost use Rattle.transfers.specs.Reply.{number};
ghost use Rattle.record.specs.Grammar.{Bytes};
ghost use Rattle.record.specs.Refusal.{check_reply};
ghost use Rattle.record.specs.Verdict.{Verdict};

use input::is_too_long;
use printing::{Hex, print_decimal, print_end, print_number, print_refused, print_text};
use record::items::{BulkItem, ControlItem, ItemAnswer, Items};
use record::look::version;
use record::reader::check;
use record::refusal::Refusal;
use std::io;
use std::io::Write;

// The eight bytes of a SETUP.
fn setup_at(s: &[u8], at: usize) -> &[u8] {
    s.get(at..)
        .and_then(|rest| rest.get(..8))
        .unwrap_or_default()
}

fn print_control<W: Write>(out: &mut W, s: &[u8], c: ControlItem) -> io::Result<()> {
    print_text(out, b"control ")?;
    print_decimal(out, c.address as u64)?;
    write!(out, " {}", Hex(setup_at(s, c.setup)))?;
    print_number(out, c.count)?;
    print_text(out, b"\n")
}

fn print_bulk<W: Write>(out: &mut W, b: BulkItem) -> io::Result<()> {
    print_text(out, b"bulk ")?;
    print_decimal(out, b.address as u64)?;
    print_number(out, b.endpoint as usize)?;
    print_number(out, b.pid as usize)?;
    print_number(out, b.count)?;
    print_text(out, b"\n")
}

// The items that didn't fail.
fn print_items<W: Write>(out: &mut W, s: &[u8]) -> io::Result<()> {
    for item in Items::new(s) {
        match item {
            ItemAnswer::Control(c) => print_control(out, s, c)?,
            ItemAnswer::Bulk(b) => print_bulk(out, b)?,
            ItemAnswer::Failed(_) => {}
        }
    }
    Ok(())
}

fn print_transfers<W: Write>(out: &mut W, s: &[u8], count: usize) -> io::Result<()> {
    print_text(out, b"WLG ")?;
    print_decimal(out, version(s) as u64)?;
    print_text(out, b"\n")?;
    print_items(out, s)?;
    print_end(out, count)
}

// "a record of at most 65,536 bytes .. 21 if the input is longer": else what the reader answers.
fn limited(s: &[u8]) -> Result<usize, Refusal>
    ensures result_value { 65536 < length s.now → check_reply result ≡ number 21 }
    ensures verdict { length s.now ≤ 65536 → Bytes s.now → Verdict s.now (check_reply result) }
{
    if is_too_long(s) {
        return Err(Refusal::Room);
    }
    check(s)
}

// Lists a record's transfers, or says why it is refused.
pub fn print_record<W: Write>(out: &mut W, s: &[u8]) -> io::Result<()> {
    match limited(s) {
        Err(refusal) => print_refused(out, u8::from(refusal)),
        Ok(count) => print_transfers(out, s, count),
    }
}
