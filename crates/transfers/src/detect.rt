// Device detection, by the speed field of SIE_STATUS.
ghost use Rattle.std.specs.Prelude.{◌≡◌};
ghost use Rattle.transfers.specs.Reply.{detect_reply};
ghost use Rattle.transfers.specs.Rows.{detect_row};
ghost use Rattle.transfers.specs.Detect.{status_at, detecting, DidDetect};

use crate::driver::Driver;
use crate::host_controller::{DeviceStatus, UsbSpeed};
use crate::log::Log;
use crate::memory::log_fits;
use crate::refusal::Refusal;
use crate::registers::{CONNECT_MASK, INTE};

#[derive(Clone, Copy)]
pub struct Detected {
    pub next: Driver,
    pub answer: Result<Option<DeviceStatus>, Refusal>,
    pub writes: usize,
}

fn status_at(speed: u32) -> DeviceStatus
    ensures { result ≡ status_at speed }
{
    match speed {
        0 => DeviceStatus::Absent,
        1 => DeviceStatus::Present(UsbSpeed::Low1_5),
        _ => DeviceStatus::Present(UsbSpeed::Full12),
    }
}

impl Driver {
    #[tactic(auto, unfolding(crate::specs::Detect::detecting_status))]
    pub fn detect(self, sie: u32, log: &mut [u32]) -> Detected
        ensures { DidDetect (detecting self sie log.old) result.next result.answer result.writes log.old log.new
            × (detect_reply result.answer ≡ detect_row self.last sie log.old) }
    {
        if !log_fits(log) {
            return Detected {
                next: self,
                answer: Err(Refusal::LentMemory),
                writes: 0,
            };
        }
        let status = status_at(sie / 0x100 % 4);
        let mut log = Log {
            words: log,
            used: 0,
        };
        log.put(INTE, CONNECT_MASK, CONNECT_MASK);
        let changed = status != self.last;
        Detected {
            next: Driver {
                last: status,
                ..self
            },
            answer: Ok(changed.then_some(status)),
            writes: log.used,
        }
    }
}
