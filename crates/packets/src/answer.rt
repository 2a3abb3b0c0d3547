// What a line answers.
use crate::line::Command;
use input::first;
use packet::packet::{Handshake, Token};
use packet::reader::{Reading, data_of, read};
use packet::refusal::Refusal;
use packet::writer::{write_data, write_handshake, write_sof, write_token};
use printing::print_text;
use script::text::Text;
use std::io;
use std::io::Write;

// The longest packet: a PID, 64 bytes and CRC16.
pub const LONGEST: usize = 67;

fn token_name(kind: Token) -> &'static str {
    match kind {
        Token::Out => "out",
        Token::In => "in",
        Token::Setup => "setup",
    }
}

fn handshake_name(kind: Handshake) -> &'static str {
    match kind {
        Handshake::Ack => "ack",
        Handshake::Nak => "nak",
        Handshake::Stall => "stall",
    }
}

// A word and a number after it.
fn put_number(text: &mut Text<256>, word: &[u8], n: usize) {
    text.put(word);
    text.put_decimal(n as u64);
}

fn put_refused(text: &mut Text<256>, why: Refusal) {
    put_number(text, b"refused ", u8::from(why) as usize);
}

fn put_reading(text: &mut Text<256>, bytes: &[u8]) {
    match read(bytes) {
        Ok(Reading::Token(kind, address, endpoint)) => {
            text.put(token_name(kind).as_bytes());
            put_number(text, b" ", address as usize);
            put_number(text, b" ", endpoint as usize);
        }
        Ok(Reading::Sof(frame)) => put_number(text, b"sof ", frame as usize),
        Ok(Reading::Data(second)) => {
            put_number(text, b"data", second as usize);
            text.put(b" ");
            text.put_pairs(data_of(bytes));
        }
        Ok(Reading::Handshake(kind)) => text.put(handshake_name(kind).as_bytes()),
        Err(why) => put_refused(text, why),
    }
}

fn put_written(text: &mut Text<256>, written: Result<usize, Refusal>, packet: &[u8]) {
    match written {
        Ok(n) => text.put_pairs(first(packet, n)),
        Err(why) => put_refused(text, why),
    }
}

// The answer to a line, with the bytes lent for a packet.
fn put_answer(text: &mut Text<256>, command: Command, bytes: &[u8; 131072], packet: &mut [u8]) {
    let written = match command {
        Command::Lend(_) => return text.put(b"ok"),
        Command::Read(n) => return put_reading(text, first(bytes, n)),
        Command::WriteToken(kind, address, endpoint) => {
            write_token(kind, address, endpoint, packet, 0)
        }
        Command::WriteSof(frame) => write_sof(frame, packet, 0),
        Command::WriteData(second, n) => write_data(second, first(bytes, n), packet, 0),
        Command::WriteHandshake(kind) => write_handshake(kind, packet, 0),
    };
    put_written(text, written, packet);
}

// A line is written at once.
pub fn answer<W: Write>(
    out: &mut W,
    command: Command,
    bytes: &[u8; 131072],
    lent: usize,
) -> io::Result<()> {
    let mut text = Text::<256>::new();
    let mut room = [0u8; LONGEST];
    let packet = &mut room[..lent.min(LONGEST)];
    put_answer(&mut text, command, bytes, packet);
    text.put(b"\n");
    print_text(out, text.text())
}
