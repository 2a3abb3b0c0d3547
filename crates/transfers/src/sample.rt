// What a step samples, and what it finds there.
ghost use Rattle.std.specs.Prelude.{◌≡◌, ◌<◌};
ghost use Rattle.transfers.specs.Registers.{at};
ghost use Rattle.transfers.specs.Sample.{errors, first_of, classify, available, full, length_in};

use crate::host_controller::UsbError;
use crate::registers::{READY_MASK, bit};

#[derive(Clone, Copy)]
pub struct Sample {
    pub status: u32,
    pub intr: u32,
    pub buffers: u32,
}

// What the status of a ready poll says. Three cases: an Option of a Result, inside `poll_status`'s own Option, would be no plainer.
#[derive(Clone, Copy)]
pub enum Found {
    Complete,
    Failed(UsbError),
    Neither,
}

// The first error bit that is set.
fn error_of(status: u32) -> Found
    ensures { result ≡ first_of status errors }
{
    if bit(status, 31) {
        return Found::Failed(UsbError::DataSeqError);
    }
    if bit(status, 29) {
        return Found::Failed(UsbError::Stall);
    }
    if bit(status, 26) {
        return Found::Failed(UsbError::Overflow);
    }
    if bit(status, 27) {
        return Found::Failed(UsbError::Timeout);
    }
    if bit(status, 25) {
        return Found::Failed(UsbError::BitStuffError);
    }
    if bit(status, 24) {
        return Found::Failed(UsbError::CrcError);
    }
    Found::Neither
}

// What a poll of `Rp2040ControlEndpoint` answers: none while it is pending.
#[tactic(auto, unfolding(crate::specs::Sample::classify))]
pub fn poll_status(status: u32, intr: u32) -> Option<Found>
    ensures { result ≡ classify status intr }
{
    if intr & READY_MASK == 0 {
        return None;
    }
    if bit(status, 18) {
        return Some(Found::Complete);
    }
    Some(error_of(status))
}

// Bit n of a slot's half of EP_BUFFER_CONTROL: slot 0 has the lower half.
fn place(slot: bool, n: u32) -> u32
    requires { n < 16 }
    ensures { (result ≡ at slot n) × (result < 32) }
{
    if slot { 16 + n } else { n }
}

// A slot's AVAILABLE, FULL and LENGTH.
pub(crate) fn slot_available(buffers: u32, slot: bool) -> bool
    ensures { result ≡ available buffers slot }
{
    bit(buffers, place(slot, 10))
}

pub(crate) fn slot_full(buffers: u32, slot: bool) -> bool
    ensures { result ≡ full buffers slot }
{
    bit(buffers, place(slot, 15))
}

pub(crate) fn slot_length(buffers: u32, slot: bool) -> u16
    ensures { result ≡ length_in buffers slot }
{
    ((buffers >> place(slot, 0)) % 0x400) as u16
}
