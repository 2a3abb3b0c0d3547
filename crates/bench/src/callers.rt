// The driver held in a `HostController`: a caller comes, a look tells its turn, and it starts.
// Its loop repeats; nothing is indexed.
use crate::Work;
use crate::control::{TRANSFERS, setup};
use crate::waiting::{STEPS, nothing};
use cutting::transfer_type::TransferType;
use host::controller::HostController;
use transfers::driver::DeskRule;
use transfers::host_controller::{DataPhase, TransferExtras};

// Every call's frame number.
const FRAME: u32 = 0;

impl Work {
    // No workload uses up a share.
    fn held(&self) -> HostController {
        let mut host = HostController::new(DeskRule::One, [0xFFFF_FFFF; 8]);
        host.driver = self.driver;
        host
    }

    // The work of `waiting`, by caller 3.
    pub fn held_waiting(&mut self) {
        let host = self.held();
        let submitted = host.submit_bulk_in(
            3,
            5,
            2,
            64,
            TransferType::FixedSize,
            false,
            self.buf.len(),
            FRAME,
        );
        let looked = submitted.next.whose_turn(FRAME);
        let started = looked
            .next
            .start_bulk_in(FRAME, &self.buf, &self.pm, &mut self.log);
        let mut host = started.next;
        for _ in 0..STEPS {
            host.driver = host
                .driver
                .step_in(nothing(), &mut self.buf, &mut self.pm, &mut self.log)
                .next;
        }
        host.driver = host.driver.cancel().next;
        self.driver = host.whose_turn(FRAME).next.driver;
    }

    // A control None by each of the eight callers in turn, cancelled.
    pub fn turns(&mut self) {
        let packet = setup(0, 9, 0);
        let mut host = self.held();
        for i in 0..TRANSFERS {
            let caller = (i % 8) as u8;
            let submitted = host.submit_control(
                caller,
                5,
                TransferExtras::Normal,
                64,
                packet,
                DataPhase::None,
                0,
                FRAME,
            );
            let looked = submitted.next.whose_turn(FRAME);
            let started = looked
                .next
                .start_control(FRAME, &[], &self.pm, &mut self.log);
            host = started.next;
            host.driver = host.driver.cancel().next;
        }
        self.driver = host.driver;
    }
}
