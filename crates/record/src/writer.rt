// The record's writer.
ghost use Rattle.std.specs.Prelude.{◌≡◌, true, ◌+◌, ◌≤◌, length};
ghost use Rattle.record.specs.Bytes.{encode_all};
ghost use Rattle.record.specs.Armed.{setups_armed, outs_armed};
ghost use Rattle.record.specs.Writer.{setup_in_range, out_in_range, armed_in_range, head_of, count_bytes, told_bytes, append_of, setup_size, out_size, armed_size, count_size, head_size, Put, Appended};

use crate::refusal::Refusal;
use transfers::answers::{Armed, ArmedOut, ArmedSetup};
use transfers::memory::slot_address;

// The version that is written; the reader takes 1 too.
pub(crate) const VERSION: u16 = 2;

fn setup_in_range(setup: Option<ArmedSetup>) -> bool
    ensures { result ≡ setup_in_range setup }
{
    setup.is_none_or(|s| s.address <= 127)
}

fn out_in_range(out: Option<ArmedOut>) -> bool
    ensures { result ≡ out_in_range out }
{
    out.is_none_or(|x| x.address <= 127 && x.endpoint <= 15 && x.arm.length <= 64)
}

#[tactic(auto, unfolding(crate::specs::Writer::armed_in_range))]
fn armed_in_range(armed: Armed) -> bool
    ensures { result ≡ armed_in_range armed }
{
    setup_in_range(armed.setup) && out_in_range(armed.first) && out_in_range(armed.second)
}

fn out_size(out: Option<ArmedOut>) -> usize
    ensures { (result ≡ out_size out) × (result ≤ 261) }
{
    out.map_or(0, |x| 6 + x.arm.length as usize)
}

// How many bytes are to be appended.
fn size(armed: Armed, failed: Option<u32>, used: usize) -> usize
    ensures { (result ≡ head_size used + armed_size armed + count_size failed) × (result ≤ 542) }
{
    let head: usize = if used == 0 { 5 } else { 0 };
    let setup: usize = armed.setup.map_or(0, |_| 10);
    let count: usize = failed.map_or(0, |_| 5);
    head + (setup + out_size(armed.first) + out_size(armed.second)) + count
}

// Stores a part; what follows it begins at the answer. `Put` speaks of the bytes and of that place, so they stay two parameters here too.
#[tactic(auto, using(crate::proofs::Puts::stored))]
fn put(bytes: &mut [u8], at: usize, part: &[u8]) -> usize
    requires { at + length part.now ≤ length bytes.old }
    ensures { Put bytes.old at part.now bytes.new result }
{
    let end = at + part.len();
    bytes[at..end].copy_from_slice(part);
    end
}

fn put_head(bytes: &mut [u8], used: usize) -> usize
    requires { used + head_size used ≤ length bytes.old }
    ensures { Put bytes.old used (head_of used) bytes.new result }
{
    if used != 0 {
        return used;
    }
    let [low, high] = VERSION.to_le_bytes();
    put(bytes, used, &[b'W', b'L', b'G', low, high])
}

#[tactic(auto, using(crate::proofs::Puts::nothing, crate::proofs::Encoding::encode_one), unfolding(crate::specs::Bytes::encode_all))]
fn put_setup(bytes: &mut [u8], at: usize, setup: Option<ArmedSetup>) -> usize
    requires { at + setup_size setup ≤ length bytes.old }
    ensures { Put bytes.old at (encode_all (setups_armed setup)) bytes.new result }
{
    let Some(s) = setup else {
        return at;
    };
    let p = s.setup;
    let [value, value_high] = p.wValue.to_le_bytes();
    let [index, index_high] = p.wIndex.to_le_bytes();
    let [length, length_high] = p.wLength.to_le_bytes();
    put(
        bytes,
        at,
        &[
            0x53,
            s.address,
            p.bmRequestType,
            p.bRequest,
            value,
            value_high,
            index,
            index_high,
            length,
            length_high,
        ],
    )
}

// An OUT packet: six bytes, and its own from its slot.
fn put_out(bytes: &mut [u8], at: usize, out: Option<ArmedOut>, pm: &[u8; 4096]) -> usize
    requires { (at + out_size out ≤ length bytes.old) × (out_in_range out ≡ true) }
    ensures { Put bytes.old at (encode_all (outs_armed pm.now out)) bytes.new result }
{
    let Some(x) = out else {
        return at;
    };
    let arm = x.arm;
    let from = slot_address(arm.slot);
    let head = [
        0x4F,
        x.address,
        x.endpoint,
        u8::from(arm.pid),
        u8::from(arm.last),
        arm.length,
    ];
    let next = put(bytes, at, &head);
    put(bytes, next, &pm[from..from + arm.length as usize])
}

// A count: 0x58 and 32 bits, low byte first.
fn put_failed(bytes: &mut [u8], at: usize, failed: Option<u32>) -> usize
    requires { at + count_size failed ≤ length bytes.old }
    ensures { Put bytes.old at (count_bytes failed) bytes.new result }
{
    let Some(count) = failed else {
        return at;
    };
    let [a, b, c, d] = count.to_le_bytes();
    put(bytes, at, &[0x58, a, b, c, d])
}

// Head, entries and count.
fn put_told(
    bytes: &mut [u8],
    used: usize,
    armed: Armed,
    failed: Option<u32>,
    pm: &[u8; 4096],
) -> usize
    requires { (used + (head_size used + armed_size armed + count_size failed) ≤ length bytes.old) × (armed_in_range armed ≡ true) }
    ensures { Put bytes.old used (told_bytes armed failed pm.now used) bytes.new result }
{
    let a = put_head(bytes, used);
    let b = put_setup(bytes, a, armed.setup);
    let c = put_out(bytes, b, armed.first, pm);
    let d = put_out(bytes, c, armed.second, pm);
    put_failed(bytes, d, failed)
}

// Appends what was armed, or the count of a transfer that failed, to a record of which `used` bytes are used, and answers how many are used then.
// The lent bytes and the count of those used stay two parameters: `append_of` speaks of any two, a count past the end too.
pub fn append(
    armed: Armed,
    failed: Option<u32>,
    pm: &[u8],
    bytes: &mut [u8],
    used: usize,
) -> Result<usize, Refusal>
    ensures { Appended (append_of armed failed pm.now bytes.old used) result bytes.new }
{
    let Ok(pm) = <&[u8; 4096]>::try_from(pm) else {
        return Err(Refusal::LentMemory);
    };
    if !armed_in_range(armed) {
        return Err(Refusal::Field);
    }
    let n = size(armed, failed, used);
    let Some(room) = bytes.len().checked_sub(used) else {
        return Err(Refusal::Room);
    };
    if room < n {
        return Err(Refusal::Room);
    }
    Ok(put_told(bytes, used, armed, failed, pm))
}
