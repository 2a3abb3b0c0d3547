// The driver's calls on the control pipe: begin, step and cancel.
ghost use Rattle.std.specs.Prelude.{◌≡◌, true, false};
ghost use Rattle.transfers.specs.Calls.{step_of, cancel_of, begin_control_of, begin_bulk_in_of, begin_bulk_out_of};
ghost use Rattle.transfers.specs.Driver.{fresh, toggle_by_rule, begun_from, stepped_from, DidBegin, DidStep, dropped};
ghost use Rattle.transfers.specs.Reply.{begin_reply, step_reply, cancel_reply};
ghost use Rattle.transfers.specs.Rows.{control_row, bulk_row, step_row_of, cancel_row};

use crate::answers::{Armed, Step};
use crate::driver::{DeskRule, Driver, Run};
use crate::entries::{
    entries_begun, entries_cancelled, entries_stepped, failed_cancel, failed_step,
};
use crate::host_controller::{DataPhase, DeviceStatus, TransferExtras};
use crate::pipes::fresh_pipes;
use crate::progress::Progress;
use crate::refusal::Refusal;
use crate::sample::Sample;
use crate::wire::SetupPacket;
use cutting::transfer_type::TransferType;

// What a begin leaves of the driver, or of its transfer alone.
#[derive(Clone, Copy)]
pub struct Begun<S = Driver> {
    pub next: S,
    pub answer: Result<(), Refusal>,
    pub armed: Armed,
    pub writes: usize,
}

// `toggle` is a bulk transfer's: the one to go on with after done, by desk rule 2 after a failure too, else the one that came in. `failed` is there where the step ended the transfer without a count.
#[derive(Clone, Copy)]
pub struct Stepped {
    pub next: Driver,
    pub answer: Result<Step, Refusal>,
    pub toggle: bool,
    pub armed: Armed,
    pub failed: Option<u32>,
    pub writes: usize,
}

#[derive(Clone, Copy)]
pub struct Dropped {
    pub next: Driver,
    pub answer: Result<(), Refusal>,
    pub toggle: bool,
    pub failed: Option<u32>,
}

// The toggle of a step or cancel, by the desk rule.
fn toggle_by_rule(rule: DeskRule, toggle: bool, moved: bool) -> bool
    ensures { result ≡ toggle_by_rule rule toggle moved }
{
    match rule {
        DeskRule::One => toggle,
        DeskRule::Two => moved,
    }
}

impl Driver {
    pub fn new(rule: DeskRule) -> Driver
        ensures { result ≡ fresh rule }
    {
        Driver {
            transfer: None,
            entries: 0,
            pipes: fresh_pipes(),
            last: DeviceStatus::Absent,
            rule,
        }
    }

    // `control_transfer` up to its first poll. The buffer is the one to be filled or sent; None has no use for it.
    #[tactic(auto, using(crate::proofs::Replies::control_row_lem))]
    pub fn begin_control(
        self,
        address: u8,
        extras: TransferExtras,
        size: u8,
        setup: SetupPacket,
        phase: DataPhase,
        buf: &[u8],
        pm: &[u8],
        log: &mut [u32],
    ) -> Begun
        ensures { DidBegin self (begin_control_of self.transfer address extras size setup phase buf.now pm.now log.old) log.old result pm.now log.new
            × (begin_reply result.answer ≡ control_row self.transfer address size pm.now log.old) }
    {
        let b = crate::begin::begin_control(
            self.transfer,
            address,
            extras,
            size,
            setup,
            phase,
            buf,
            pm,
            log,
        );
        self.begun(b)
    }

    // `bulk_in_transfer` up to its first poll. IN and OUT are calls of their own, here and of steps, as in the Rust and in docs/GLUE.md: they share `begun`, `stepped` and the checks.
    #[tactic(auto, using(crate::proofs::Replies::bulk_in_row))]
    pub fn begin_bulk_in(
        self,
        address: u8,
        endpoint: u8,
        size: u16,
        kind: TransferType,
        toggle: bool,
        buf: &[u8],
        pm: &[u8],
        log: &mut [u32],
    ) -> Begun
        ensures { DidBegin self (begin_bulk_in_of self.transfer address endpoint size kind toggle buf.now pm.now log.old) log.old result pm.now log.new
            × (begin_reply result.answer ≡ bulk_row self.transfer address endpoint size buf.now pm.now log.old) }
    {
        let b = crate::begin::begin_bulk_in(
            self.transfer,
            address,
            endpoint,
            size,
            kind,
            toggle,
            buf,
            pm,
            log,
        );
        self.begun(b)
    }

    // `bulk_out_transfer` up to its first poll.
    #[tactic(auto, using(crate::proofs::Replies::bulk_out_row))]
    pub fn begin_bulk_out(
        self,
        address: u8,
        endpoint: u8,
        size: u16,
        kind: TransferType,
        toggle: bool,
        buf: &[u8],
        pm: &mut [u8],
        log: &mut [u32],
    ) -> Begun
        ensures { DidBegin self (begin_bulk_out_of self.transfer address endpoint size kind toggle buf.now pm.old log.old) log.old result pm.new log.new
            × (begin_reply result.answer ≡ bulk_row self.transfer address endpoint size buf.now pm.old log.old) }
    {
        let b = crate::begin::begin_bulk_out(
            self.transfer,
            address,
            endpoint,
            size,
            kind,
            toggle,
            buf,
            pm,
            log,
        );
        self.begun(b)
    }

    // A step of bulk IN, control In or None: the buffer is filled.
    #[tactic(auto, using(crate::proofs::Telling::lifted, crate::proofs::Replies::step_row))]
    pub fn step_in(self, sample: Sample, buf: &mut [u8], pm: &mut [u8], log: &mut [u32]) -> Stepped
        ensures { DidStep self (step_of true self.transfer sample buf.old pm.old log.old) log.old result pm.new log.new
            × (buf.new ≡ (step_of true self.transfer sample buf.old pm.old log.old).buffer)
            × (step_reply result.answer ≡ step_row_of true self.transfer sample buf.old pm.old log.old) }
    {
        let (p, writes) = crate::step::step_in(self.transfer, sample, buf, pm, log);
        self.stepped(p, writes)
    }

    // A step of bulk OUT or control Out: the buffer is sent.
    #[tactic(auto, using(crate::proofs::Telling::lifted, crate::proofs::Replies::step_row))]
    pub fn step_out(self, sample: Sample, buf: &[u8], pm: &mut [u8], log: &mut [u32]) -> Stepped
        ensures { DidStep self (step_of false self.transfer sample buf.now pm.old log.old) log.old result pm.new log.new
            × (step_reply result.answer ≡ step_row_of false self.transfer sample buf.now pm.old log.old) }
    {
        let (p, writes) = crate::step::step_out(self.transfer, sample, buf, pm, log);
        self.stepped(p, writes)
    }

    // The Rust's dropping the future.
    #[tactic(auto, using(crate::proofs::Replies::cancel_row_lem))]
    pub fn cancel(self) -> Dropped
        ensures { (result ≡ dropped self (cancel_of self.transfer)) × (cancel_reply result.answer ≡ cancel_row self.transfer) }
    {
        let c = crate::begin::cancel(self.transfer);
        Dropped {
            next: Driver {
                transfer: c.next,
                entries: entries_cancelled(c.answer, self.entries),
                ..self
            },
            answer: c.answer,
            toggle: toggle_by_rule(self.rule, c.toggle, c.moved),
            failed: failed_cancel(c.answer, self.entries),
        }
    }

    // What a begin hands back, from what it did to the transfer.
    #[inline(always)]
    fn begun(self, b: Begun<Option<Run>>) -> Begun
        ensures { result ≡ begun_from self b }
    {
        Begun {
            next: Driver {
                transfer: b.next,
                entries: entries_begun(b.answer, self.entries, b.armed),
                ..self
            },
            answer: b.answer,
            armed: b.armed,
            writes: b.writes,
        }
    }

    // What a step hands back.
    #[inline(always)]
    fn stepped(self, p: Progress, writes: usize) -> Stepped
        ensures { result ≡ stepped_from self p writes }
    {
        Stepped {
            next: Driver {
                transfer: p.next,
                entries: entries_stepped(p.answer, self.entries, p.armed),
                ..self
            },
            answer: p.answer,
            toggle: toggle_by_rule(self.rule, p.toggle, p.moved),
            armed: p.armed,
            failed: failed_step(p.answer, self.entries),
            writes,
        }
    }
}
