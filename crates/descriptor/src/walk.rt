// What the walk answers at a position, and the descriptor that it finds there.
ghost use Rattle.std.specs.Prelude.{◌≡◌, ℕ, ◌+◌, ◌%◌, ◌≤◌, ◌<◌, length, get_or, Some, MatchResult};
ghost use Rattle.descriptor.specs.Walk.{part_at, fields_at, inside_answer, total_of, walk_of, part_of, refused};
ghost use Rattle.descriptor.specs.Answers.{Accepted};
ghost use Rattle.descriptor.specs.Reply.{number_of, type_number, type_text, fields_of, walk_reply};

use crate::refusal::Refusal;
use std::fmt;

// An endpoint's transfer type.
#[derive(Clone, Copy)]
pub enum EndpointKind {
    Control,
    Isochronous,
    Bulk,
    Interrupt,
}

// Of bmAttributes.
impl From<u8> for EndpointKind {
    ghost from_gives = { λ attributes kind. type_number kind ≡ attributes % 4 };

    fn from(attributes: u8) -> EndpointKind {
        match attributes % 4 {
            0 => EndpointKind::Control,
            1 => EndpointKind::Isochronous,
            2 => EndpointKind::Bulk,
            _ => EndpointKind::Interrupt,
        }
    }
}

impl fmt::Display for EndpointKind {
    ghost output = { λ kind. Some (type_text kind) };

    fn fmt<W: fmt::Write>(&self, f: &mut fmt::Formatter<W>) -> fmt::Result {
        f.write_str(match self {
            EndpointKind::Control => "control",
            EndpointKind::Isochronous => "isochronous",
            EndpointKind::Bulk => "bulk",
            EndpointKind::Interrupt => "interrupt",
        })
    }
}

#[derive(Clone, Copy)]
pub struct Endpoint {
    pub address: u8,
    pub kind: EndpointKind,
    pub size: u16,
    pub interval: u8,
}

// A descriptor that the walk finds, and an endpoint's with its fields. Its bytes are `descriptor_at`'s.
#[derive(Clone, Copy)]
pub struct Descriptor {
    pub endpoint: Option<Endpoint>,
}

const CONFIGURATION: u8 = 2;

const ENDPOINT: u8 = 5;

// The fields of an endpoint descriptor, at least 7 bytes of it lent.
fn endpoint_at(bytes: &[u8], at: usize) -> Endpoint
    requires { at + 7 ≤ length bytes.now }
    ensures { fields_of result ≡ fields_at bytes.now at }
{
    Endpoint {
        address: bytes[at + 2],
        kind: EndpointKind::from(bytes[at + 3]),
        size: u16::from_le_bytes([bytes[at + 4], bytes[at + 5]]),
        interval: bytes[at + 6],
    }
}

// At a position before wTotalLength.
fn inside_answer(bytes: &[u8], total: usize, at: usize) -> Result<Option<Descriptor>, Refusal>
    requires { (total ≤ length bytes.now) × (at < total) × (total ≡ total_of bytes.now) }
    ensures { walk_reply result (part_at bytes.now at) ≡ inside_answer bytes.now at }
{
    let n = bytes[at] as usize;
    if n < 2 {
        return Err(Refusal::Length);
    }
    if total - at < n {
        return Err(Refusal::TotalLength);
    }
    if bytes[at + 1] != ENDPOINT {
        return Ok(Some(Descriptor { endpoint: None }));
    }
    if n < 7 {
        return Err(Refusal::Length);
    }
    Ok(Some(Descriptor {
        endpoint: Some(endpoint_at(bytes, at)),
    }))
}

// wTotalLength, where none of the first two checks refuses.
#[tactic(auto, unfolding(crate::specs::Walk::walk_of))]
fn total_length(bytes: &[u8]) -> Result<usize, Refusal>
    ensures { MatchResult result (λ total. (total ≡ total_of bytes.now) × Accepted bytes.now) (λ why. (at : ℕ) → refused (number_of why) ≡ walk_of bytes.now at) }
{
    if bytes.len() < 9 || bytes[1] != CONFIGURATION {
        return Err(Refusal::Configuration);
    }
    let total = usize::from(u16::from_le_bytes([bytes[2], bytes[3]]));
    if total < 9 || bytes.len() < total {
        return Err(Refusal::TotalLength);
    }
    Ok(total)
}

// The descriptor at a position, or none from wTotalLength on; bytes and position are the two that README's calls take.
// Its bytes come from a call of their own: `OneAnswer` fixes an answer by its reply, which has a slice's bytes and not where they lie.
#[tactic(auto, unfolding(crate::specs::Walk::walk_of))]
pub fn answer_at(bytes: &[u8], at: usize) -> Result<Option<Descriptor>, Refusal>
    ensures { walk_reply result (part_of (walk_of bytes.now at)) ≡ walk_of bytes.now at }
{
    let total = total_length(bytes)?;
    if total <= at {
        return Ok(None);
    }
    inside_answer(bytes, total, at)
}

// The bytes of the descriptor at a position, all of them lent.
fn part_at(bytes: &[u8], at: usize) -> &[u8]
    requires { (at < length bytes.now) × (at + get_or bytes.now at 0 ≤ length bytes.now) }
    ensures { result.now ≡ part_at bytes.now at }
{
    let n = bytes[at] as usize;
    &bytes[at..at + n]
}

// The descriptor at a position, a part of the caller's own bytes; empty where none is found.
pub fn descriptor_at(bytes: &[u8], at: usize) -> &[u8]
    ensures { result.now ≡ part_of (walk_of bytes.now at) }
{
    match answer_at(bytes, at) {
        Ok(Some(_)) => part_at(bytes, at),
        Ok(None) | Err(_) => &bytes[..0],
    }
}
