// One entry of a record's bytes.
ghost use Rattle.std.specs.Prelude.{◌≡◌, length, drop};
ghost use Rattle.record.specs.Reader.{version_at, head_right, look_setup, fields_fit, look_out, look_failed, look};

use crate::refusal::Refusal;

// An OUT entry without its bytes.
#[derive(Clone, Copy)]
pub struct OutHead {
    pub address: u8,
    pub endpoint: u8,
    pub pid: bool,
    pub last: bool,
    pub length: u8,
}

// An entry: a SETUP with address and wLength, an OUT packet, or a failed transfer's count.
#[derive(Clone, Copy)]
pub enum Look {
    Setup(u8, u16),
    Out(OutHead),
    Failed(u32),
}

#[tactic(auto, unfolding(crate::specs::Reader::head_right))]
pub(crate) fn head_right(s: &[u8]) -> bool
    ensures { result ≡ head_right s.now }
{
    match s {
        [b'W', b'L', b'G', low, high, ..] => {
            let version = u16::from_le_bytes([*low, *high]);
            version == 1 || version == 2
        }
        _ => false,
    }
}

// The version of a record's head; 0 where there is none: `Accepted` says which number it is.
#[tactic(auto, unfolding(crate::specs::Reader::version_at))]
pub fn version(s: &[u8]) -> u16
    ensures { result ≡ version_at s.now }
{
    match s {
        [_, _, _, low, high, ..] => u16::from_le_bytes([*low, *high]),
        _ => 0,
    }
}

#[tactic(auto, unfolding(crate::specs::Reader::look_setup))]
fn look_setup(rest: &[u8]) -> Result<Option<Look>, Refusal>
    ensures { result ≡ look_setup rest.now }
{
    match rest {
        [_, address, _, _, _, _, _, _, low, high, ..] if *address <= 127 => Ok(Some(Look::Setup(
            *address,
            u16::from_le_bytes([*low, *high]),
        ))),
        _ => Err(Refusal::Field),
    }
}

#[tactic(auto, unfolding(crate::specs::Reader::fields_fit))]
fn fields_fit(address: u8, endpoint: u8, pid: u8, last: u8, length: u8) -> bool
    ensures { result ≡ fields_fit address endpoint pid last length }
{
    address <= 127 && endpoint <= 15 && pid <= 1 && last <= 1 && length <= 64
}

#[tactic(auto, unfolding(crate::specs::Reader::look_out))]
fn look_out(rest: &[u8]) -> Result<Option<Look>, Refusal>
    ensures { result ≡ look_out rest.now }
{
    let [_, address, endpoint, pid, last, length, bytes @ ..] = rest else {
        return Err(Refusal::Field);
    };
    if !fields_fit(*address, *endpoint, *pid, *last, *length) || bytes.len() < *length as usize {
        return Err(Refusal::Field);
    }
    Ok(Some(Look::Out(OutHead {
        address: *address,
        endpoint: *endpoint,
        pid: *pid == 1,
        last: *last == 1,
        length: *length,
    })))
}

// 0x58 and 32 bits.
#[tactic(auto, unfolding(crate::specs::Reader::look_failed))]
fn look_failed(rest: &[u8]) -> Result<Option<Look>, Refusal>
    ensures { result ≡ look_failed rest.now }
{
    match rest {
        [_, a, b, c, d, ..] => Ok(Some(Look::Failed(u32::from_le_bytes([*a, *b, *c, *d])))),
        _ => Err(Refusal::Field),
    }
}

// The entry at a position, or `None` at the end.
#[tactic(auto, unfolding(crate::specs::Reader::look))]
pub fn look_at(s: &[u8], at: usize) -> Result<Option<Look>, Refusal>
    ensures { result ≡ look (drop at s.now) }
{
    if s.len() <= at {
        return Ok(None);
    }
    let rest = &s[at..];
    match rest[0] {
        0x53 => look_setup(rest),
        0x4F => look_out(rest),
        0x58 => look_failed(rest),
        _ => Err(Refusal::Field),
    }
}
