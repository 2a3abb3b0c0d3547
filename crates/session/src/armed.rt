// What a call armed, as lines of a block.
use crate::output::{Output, put_number};
use cutting::packetiser::Arm;
use transfers::answers::{Armed, ArmedOut, ArmedSetup};
use transfers::memory::slot_address;
use transfers::wire::SetupPacket;

fn print_setup(out: &mut Output, s: ArmedSetup) {
    let setup = s.setup;
    out.put(b"setup");
    put_number(out, s.address as u64);
    out.put(b" ");
    out.put_pairs(&setup_bytes(setup));
    out.put(b"\n");
}

// SETUP as on the wire, the low byte of each half first.
fn setup_bytes(setup: SetupPacket) -> [u8; 8] {
    let [value_low, value_high] = setup.wValue.to_le_bytes();
    let [index_low, index_high] = setup.wIndex.to_le_bytes();
    let [length_low, length_high] = setup.wLength.to_le_bytes();
    [
        setup.bmRequestType,
        setup.bRequest,
        value_low,
        value_high,
        index_low,
        index_high,
        length_low,
        length_high,
    ]
}

// A packet's bytes in its slot.
fn slot_bytes(pm: &[u8; 4096], arm: Arm) -> &[u8] {
    let slot = pm.get(slot_address(arm.slot)..).unwrap_or_default();
    slot.get(..arm.length as usize).unwrap_or(slot)
}

// An OUT packet.
fn print_out(out: &mut Output, o: ArmedOut, pm: &[u8; 4096]) {
    let arm = o.arm;
    out.put(b"out");
    put_number(out, o.address as u64);
    put_number(out, o.endpoint as u64);
    put_number(out, u8::from(arm.pid) as u64);
    put_number(out, u8::from(arm.last) as u64);
    put_number(out, arm.length as u64);
    out.put(b" ");
    out.put_pairs(slot_bytes(pm, arm));
    out.put(b"\n");
}

fn print_outs(out: &mut Output, armed: Armed, pm: &[u8; 4096]) {
    if let Some(first) = armed.first {
        print_out(out, first, pm);
    }
    if let Some(second) = armed.second {
        print_out(out, second, pm);
    }
}

pub(crate) fn print_armed(out: &mut Output, armed: Armed, pm: &[u8; 4096]) {
    if let Some(setup) = armed.setup {
        print_setup(out, setup);
    }
    print_outs(out, armed, pm)
}
