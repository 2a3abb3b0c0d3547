// A record's packets, printed: a line each, or a capture file.
#![tactic(auto)]

mod pcap;

ghost use Rattle.std.specs.Prelude.{◌≡◌, ◌≤◌, ◌<◌, length};
ghost use Rattle.transfers.specs.Reply.{result as used_to, number};
ghost use Rattle.record.specs.Grammar.{Bytes};
ghost use Rattle.record.specs.Verdict.{Whole};
ghost use Rattle.export.specs.Export.{export_of};
ghost use Rattle.export.specs.Exported.{Exported, export_reply};

use crate::pcap::{FILE_HEAD, frame_head};
use export::{export, lengths_at};
use input::{first, is_too_long};
use printing::{print_end, print_refused, print_text};
use record::refusal::Refusal;
use script::text::Text;
use std::io;
use std::io::Write;

// A line of bytes a packet, or a pcap file.
#[derive(Clone, Copy)]
pub enum Form {
    Lines,
    Pcap,
}

// A packet's bytes as hexadecimal pairs: a line is written at once.
fn print_line<W: Write>(out: &mut W, bytes: &[u8]) -> io::Result<()> {
    let mut text = Text::<256>::new();
    text.put_pairs(bytes);
    text.put(b"\n");
    print_text(out, text.text())
}

// Packet i.
fn print_packet<W: Write>(out: &mut W, form: Form, i: usize, bytes: &[u8]) -> io::Result<()> {
    match form {
        Form::Lines => print_line(out, bytes),
        Form::Pcap => {
            print_text(out, &frame_head(i, bytes.len()))?;
            print_text(out, bytes)
        }
    }
}

// The packets of each entry, a token and its data, and how many they are. A failed transfer's count has none. An entry's length tells the next position.
#[tactic(auto, using(export::proofs::Walking::entry_some, export::proofs::Walking::entry_inside))]
fn print_packets<W: Write>(out: &mut W, form: Form, s: &[u8], packets: &[u8]) -> io::Result<usize> {
    let mut at: usize = 5;
    let mut rest = packets;
    let mut count: usize = 0;
    while let Some(l) = lengths_at(s, at) {
        let (token, others) = rest.split_at_checked(l.token).unwrap_or_default();
        let (payload, others) = others.split_at_checked(l.payload).unwrap_or_default();
        if !token.is_empty() {
            print_packet(out, form, count, token)?;
            print_packet(out, form, count + 1, payload)?;
            count += 2;
        }
        rest = others;
        at += l.entry;
    }
    Ok(count)
}

fn print_export<W: Write>(out: &mut W, form: Form, s: &[u8], packets: &[u8]) -> io::Result<()> {
    match form {
        Form::Lines => {
            let count = print_packets(out, form, s, packets)?;
            print_text(out, b"# ")?;
            print_end(out, count)
        }
        Form::Pcap => {
            print_text(out, &FILE_HEAD)?;
            print_packets(out, form, s, packets)?;
            Ok(())
        }
    }
}

// "at most 65,536 bytes": a longer input is refused with 21; else the record is exported, and there is always room.
// The count stands beside the bytes: `Exported` speaks of both.
#[tactic(auto, using(export::proofs::Walking::fits_twice))]
fn limited(s: &[u8], out: &mut [u8; 131072]) -> Result<usize, Refusal>
    ensures too_long { 65536 < length s.now → export_reply result ≡ number 21 }
    ensures exported { length s.now ≤ 65536 → Bytes s.now → Exported s.now out.old result out.new }
    ensures whole { length s.now ≤ 65536 → Bytes s.now → ((w : Whole s.now) → export_reply result ≡ used_to (length (export_of w.ms))) }
{
    if is_too_long(s) {
        return Err(Refusal::Room);
    }
    export(s, out)
}

// Prints a record's packets, or says why it is refused.
pub fn print_capture<W: Write>(out: &mut W, form: Form, s: &[u8]) -> io::Result<()> {
    let mut room = [0u8; 131072];
    match limited(s, &mut room) {
        Err(why) => print_refused(out, u8::from(why)),
        Ok(n) => print_export(out, form, s, first(&room, n)),
    }
}
