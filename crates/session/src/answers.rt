// What comes of a call that isn't refused, as its answer's line spells it.
use crate::output::{Output, put_number};
use crate::print::Came;
use pool::pipe::PipeNumber;
use transfers::answers::Step;
use transfers::host_controller::{DeviceStatus, InterruptPacket, UsbSpeed};
use transfers::irq::Wake;

// A step of a bulk comes with its toggle; a control has none.
#[derive(Clone, Copy)]
pub(crate) enum Outcome {
    Pipe(PipeNumber),
    Packet(InterruptPacket),
    Step(Step, Option<bool>),
    Wake(Wake),
    Device(Option<DeviceStatus>),
}

fn device_name(device: DeviceStatus) -> &'static [u8] {
    match device {
        DeviceStatus::Absent => b"absent",
        DeviceStatus::Present(UsbSpeed::Low1_5) => b"low",
        DeviceStatus::Present(UsbSpeed::Full12) => b"full",
    }
}

fn put_packet(out: &mut Output, p: InterruptPacket) {
    out.put(b"packet");
    put_number(out, p.address as u64);
    put_number(out, p.endpoint as u64);
    put_number(out, p.size as u64);
    out.put(b" ");
    out.put_pairs(&p.data[..usize::from(p.size).min(64)]);
}

fn put_step(out: &mut Output, step: Step, toggle: Option<bool>) {
    match step {
        Step::Waiting(again) => {
            out.put(b"waiting");
            put_number(out, u8::from(again) as u64);
        }
        Step::Done(count) => {
            out.put(b"done");
            put_number(out, count as u64);
            match toggle {
                Some(toggle) => put_number(out, u8::from(toggle) as u64),
                None => out.put(b" -"),
            }
        }
    }
}

fn put_wake(out: &mut Output, w: Wake) {
    out.put(b"wake ");
    out.put_hex(w.pipes as u64, 4);
    put_number(out, u8::from(w.detect) as u64);
}

fn put_device(out: &mut Output, device: Option<DeviceStatus>) {
    match device {
        Some(device) => {
            out.put(b"device ");
            out.put(device_name(device));
        }
        None => out.put(b"waiting 0"),
    }
}

impl Came for Outcome {
    fn put(self, out: &mut Output) {
        match self {
            Outcome::Pipe(PipeNumber(n)) => {
                out.put(b"pipe");
                put_number(out, n as u64);
            }
            Outcome::Packet(p) => put_packet(out, p),
            Outcome::Step(step, toggle) => put_step(out, step, toggle),
            Outcome::Wake(w) => put_wake(out, w),
            Outcome::Device(device) => put_device(out, device),
        }
    }
}
