// The driver, the dispatcher and what each caller came with, as one value: comings and looks.
ghost use Rattle.std.specs.Prelude.{◌≡◌, ◌<◌};
ghost use Rattle.host.specs.Fields.{control_fields, bulk_in_fields, bulk_out_fields};
ghost use Rattle.host.specs.Controller.{fresh_host, idle, observed, fields_at, with_fields};
ghost use Rattle.host.specs.Submit.{submit_checks, submit_of};
ghost use Rattle.host.specs.Turn.{turn_answer, whose_turn_of};
ghost use Rattle.host.specs.Reply.{submit_reply, turn_reply};
ghost use Rattle.host.specs.Rows.{submit_row, turn_row};

use crate::answers::SubmitRefusal;
use crate::fields::{BulkFields, ControlFields, Fields, no_fields};
use cutting::transfer_type::TransferType;
use dispatcher::Dispatcher;
use transfers::driver::{DeskRule, Driver};
use transfers::host_controller::{DataPhase, TransferExtras};
use transfers::wire::SetupPacket;

// `submissions` is what each caller came with last. The driver's own calls go on the field: `let r = host.driver.step_in(..); host.driver = r.next;`.
#[derive(Clone, Copy)]
pub struct HostController {
    pub driver: Driver,
    pub dispatcher: Dispatcher,
    pub submissions: [Fields; 8],
}

#[derive(Clone, Copy)]
pub struct SubmitResult {
    pub next: HostController,
    pub answer: Result<(), SubmitRefusal>,
}

#[derive(Clone, Copy)]
pub struct TurnResult {
    pub next: HostController,
    pub answer: Option<u8>,
}

// A turn above 7 is nobody's.
pub(crate) fn turn_answer(c: u8) -> Option<u8>
    ensures { result ≡ turn_answer c }
{
    (c < 8).then_some(c)
}

impl HostController {
    // `quota` is the share of each caller, in bytes a frame.
    pub fn new(rule: DeskRule, quota: [u32; 8]) -> HostController
        ensures { result ≡ fresh_host rule quota }
    {
        HostController {
            driver: Driver::new(rule),
            dispatcher: Dispatcher::new(quota),
            submissions: [no_fields(); 8],
        }
    }

    // No transfer is under way.
    pub(crate) fn is_idle(&self) -> bool
        ensures { result ≡ idle self.now }
    {
        transfers::begin::is_idle(self.driver.transfer)
    }

    // What caller c came with last.
    pub(crate) fn fields_at(&self, c: u8) -> Fields
        requires { c < 8 }
        ensures { result ≡ fields_at self.now c }
    {
        self.submissions[c as usize]
    }

    fn with_fields(&mut self, c: u8, fields: Fields)
        requires { c < 8 }
        ensures { self.new ≡ with_fields self.old c fields }
    {
        self.submissions[c as usize] = fields;
    }

    // As a look in this frame leaves it. Inlined, it made a step on the field `driver` 15 instructions dearer (docs/DESIGN-PASS.md, "Speed").
    #[inline(never)]
    pub(crate) fn observed(self, frame: u32) -> HostController
        ensures { result ≡ observed self frame }
    {
        HostController {
            dispatcher: self.dispatcher.observes(self.is_idle(), frame),
            ..self
        }
    }

    // 32, 33, 34, then as begin.
    fn submit_checks(&self, caller: u8, fields: Fields) -> Result<(), SubmitRefusal>
        ensures { result ≡ submit_checks self.now caller fields }
    {
        if caller > 7 {
            return Err(SubmitRefusal::Caller);
        }
        if self.dispatcher.pending_at(caller) {
            return Err(SubmitRefusal::Pending);
        }
        if fields.requested() > self.dispatcher.quota_at(caller) as usize {
            return Err(SubmitRefusal::Quota);
        }
        fields.refused()?;
        Ok(())
    }

    // A coming. A refused one changes nothing.
    #[tactic(auto, using(crate::proofs::Replies::submit_row_lem), unfolding(crate::specs::Submit::submit_of))]
    fn submit(mut self, caller: u8, fields: Fields, frame: u32) -> SubmitResult
        ensures { (result ≡ submit_of self caller fields frame) × (submit_reply result.answer ≡ submit_row self caller fields) }
    {
        match self.submit_checks(caller, fields) {
            Err(why) => SubmitResult {
                next: self,
                answer: Err(why),
            },
            Ok(()) => {
                let bytes = fields.requested();
                let dispatcher = self
                    .dispatcher
                    .submits(self.is_idle(), caller, bytes, frame);
                self.with_fields(caller, fields);
                SubmitResult {
                    next: HostController { dispatcher, ..self },
                    answer: Ok(()),
                }
            }
        }
    }

    // A control transfer comes, by begin's own fields, as its start and `control_fields` have them; its buffer is `length` bytes long, and lent with its start.
    pub fn submit_control(
        self,
        caller: u8,
        address: u8,
        extras: TransferExtras,
        size: u8,
        setup: SetupPacket,
        phase: DataPhase,
        length: usize,
        frame: u32,
    ) -> SubmitResult
        ensures { (result ≡ submit_of self caller (control_fields address extras size setup phase length) frame)
            × (submit_reply result.answer ≡ submit_row self caller (control_fields address extras size setup phase length)) }
    {
        self.submit(
            caller,
            Fields::Control(ControlFields {
                address,
                extras,
                size,
                setup,
                phase,
                length,
            }),
            frame,
        )
    }

    // A bulk IN transfer comes. The three comings stay, as `term3` and docs/GLUE.md name them: one call each of `submit`.
    pub fn submit_bulk_in(
        self,
        caller: u8,
        address: u8,
        endpoint: u8,
        size: u16,
        kind: TransferType,
        toggle: bool,
        length: usize,
        frame: u32,
    ) -> SubmitResult
        ensures { (result ≡ submit_of self caller (bulk_in_fields address endpoint size kind toggle length) frame)
            × (submit_reply result.answer ≡ submit_row self caller (bulk_in_fields address endpoint size kind toggle length)) }
    {
        self.submit(
            caller,
            Fields::BulkIn(BulkFields {
                address,
                endpoint,
                size,
                kind,
                toggle,
                length,
            }),
            frame,
        )
    }

    // A bulk OUT transfer comes.
    pub fn submit_bulk_out(
        self,
        caller: u8,
        address: u8,
        endpoint: u8,
        size: u16,
        kind: TransferType,
        toggle: bool,
        length: usize,
        frame: u32,
    ) -> SubmitResult
        ensures { (result ≡ submit_of self caller (bulk_out_fields address endpoint size kind toggle length) frame)
            × (submit_reply result.answer ≡ submit_row self caller (bulk_out_fields address endpoint size kind toggle length)) }
    {
        self.submit(
            caller,
            Fields::BulkOut(BulkFields {
                address,
                endpoint,
                size,
                kind,
                toggle,
                length,
            }),
            frame,
        )
    }

    // A look, never refused.
    #[tactic(auto, using(crate::proofs::Replies::turn_row_lem), unfolding(crate::specs::Turn::whose_turn_of))]
    pub fn whose_turn(self, frame: u32) -> TurnResult
        ensures { (result ≡ whose_turn_of self frame) × (turn_reply result.answer ≡ turn_row self frame) }
    {
        let next = self.observed(frame);
        TurnResult {
            next,
            answer: turn_answer(next.dispatcher.whose(next.is_idle())),
        }
    }
}
