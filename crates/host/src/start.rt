// Starts: what begin did, with the fields that the caller whose turn it is came with. A start begins with a look; a refused one changes nothing.
ghost use Rattle.std.specs.Prelude.{◌≡◌, true, false, refl, MatchOption, MatchResult};
ghost use Rattle.host.specs.declared.fields.Fields.{Fields};
ghost use Rattle.host.specs.declared.fields.Fields.TheVariants.{Control, BulkIn, BulkOut};
ghost use Rattle.host.specs.Start.{StartKind, control, bulk_in, bulk_out, of_kind, next_start, refusing, started_by, start_of, DidStart, Admitted, Refused};
ghost use Rattle.host.specs.Reply.{start_reply};
ghost use Rattle.host.specs.Rows.{start_row};

use crate::controller::{HostController, turn_answer};
use crate::fields::{BulkFields, ControlFields, Fields};
use transfers::answers::Armed;
use transfers::control::Begun;
use transfers::memory::lent_fits;
use transfers::refusal::Refusal;

#[derive(Clone, Copy)]
pub struct StartResult {
    pub next: HostController,
    pub answer: Result<u8, Refusal>,
    pub armed: Armed,
    pub writes: usize,
}

// Who starts next, and what it came with.
#[derive(Clone, Copy)]
pub(crate) struct NextStart {
    pub caller: u8,
    pub fields: Fields,
}

// What one of the three starts begins with.
pub(crate) trait StartFields: Copy {
    ghost kind: { StartKind };

    ghost came: { Self → Fields };

    // Those that came, if they are of this kind.
    fn of(fields: Fields) -> Option<Self>
        ensures { MatchOption result (of_kind kind fields ≡ false) (λ y. fields ≡ came y) };

    ghost is_kind: { (y : Self) → of_kind kind (came y) ≡ true };
}

impl StartFields for ControlFields {
    ghost kind = { control };

    ghost came = { Control };

    ghost is_kind = { λ y. refl };

    fn of(fields: Fields) -> Option<ControlFields> {
        match fields {
            Fields::Control(y) => Some(y),
            _ => None,
        }
    }
}

// What came as a bulk IN.
#[derive(Clone, Copy)]
pub(crate) struct BulkIn(BulkFields);

impl StartFields for BulkIn {
    ghost kind = { bulk_in };

    ghost came = { λ y. BulkIn y.0 };

    ghost is_kind = { λ y. refl };

    fn of(fields: Fields) -> Option<BulkIn> {
        match fields {
            Fields::BulkIn(y) => Some(BulkIn(y)),
            _ => None,
        }
    }
}

// What came as a bulk OUT.
#[derive(Clone, Copy)]
pub(crate) struct BulkOut(BulkFields);

impl StartFields for BulkOut {
    ghost kind = { bulk_out };

    ghost came = { λ y. BulkOut y.0 };

    ghost is_kind = { λ y. refl };

    fn of(fields: Fields) -> Option<BulkOut> {
        match fields {
            Fields::BulkOut(y) => Some(BulkOut(y)),
            _ => None,
        }
    }
}

// What the checks of a start leave: who starts, and what this call begins with.
#[derive(Clone, Copy)]
pub(crate) struct Admission<T> {
    pub next: NextStart,
    pub fields: T,
}

// Nothing is armed: `transfers`' own `nothing_armed` is of its crate alone.
fn refuse_start(next: HostController, why: Refusal) -> StartResult
    ensures { result ≡ refusing next why }
{
    StartResult {
        next,
        answer: Err(why),
        armed: Armed {
            setup: None,
            first: None,
            second: None,
        },
        writes: 0,
    }
}

impl HostController {
    // Who starts after a look: all of 16 but the call's kind.
    fn next_start(&self) -> Option<NextStart>
        ensures { result ≡ next_start self.now }
    {
        let caller = turn_answer(self.dispatcher.whose(self.is_idle()))?;
        let fields = self.fields_at(caller);
        if !self.dispatcher.pending_at(caller)
            || !self.dispatcher.has_room(caller, fields.requested())
        {
            return None;
        }
        fields.refused().ok()?;
        Some(NextStart { caller, fields })
    }

    // The checks of a start after its look, in their order; `n` is the length of the buffer lent.
    #[tactic(auto, unfolding(crate::specs::Start::start_of))]
    fn admit<T: StartFields>(&self, n: usize) -> Result<Admission<T>, Refusal>
        ensures { MatchResult result (Admitted T.kind T.came self.now n) (Refused T.kind self.now n) }
    {
        let next = self.next_start().ok_or(Refusal::State)?;
        let fields = T::of(next.fields).ok_or(Refusal::State)?;
        if n != next.fields.length() {
            return Err(Refusal::LentMemory);
        }
        Ok(Admission { next, fields })
    }

    // The transfer of n has begun, and its bytes are charged.
    fn started(self, n: NextStart, b: Begun) -> StartResult
        ensures { result ≡ started_by self n b }
    {
        let mut next = self;
        next.driver = b.next;
        next.dispatcher = self.dispatcher.starts(n.caller, n.fields.requested());
        StartResult {
            next,
            answer: Ok(n.caller),
            armed: b.armed,
            writes: b.writes,
        }
    }

    // A control transfer starts. The three starts stay: `StartKind` and `term3` name them, and a bulk OUT alone writes packet memory.
    #[tactic(auto, using(crate::proofs::Admitting::start_unlent, crate::proofs::Replies::start_row_lem))]
    pub fn start_control(self, frame: u32, buf: &[u8], pm: &[u8], log: &mut [u32]) -> StartResult
        ensures { DidStart (start_of self StartKind.control frame buf.now pm.now log.old) log.old result pm.now log.new
            × (start_reply result.answer ≡ start_row self StartKind.control frame buf.now pm.now log.old) }
    {
        if !lent_fits(pm, log) {
            return refuse_start(self, Refusal::LentMemory);
        }
        let now = self.observed(frame);
        match now.admit::<ControlFields>(buf.len()) {
            Err(why) => refuse_start(self, why),
            Ok(a) => {
                let x = a.fields;
                let b = now.driver.begin_control(
                    x.address, x.extras, x.size, x.setup, x.phase, buf, pm, log,
                );
                now.started(a.next, b)
            }
        }
    }

    // A bulk IN transfer starts.
    #[tactic(auto, using(crate::proofs::Admitting::start_unlent, crate::proofs::Replies::start_row_lem))]
    pub fn start_bulk_in(self, frame: u32, buf: &[u8], pm: &[u8], log: &mut [u32]) -> StartResult
        ensures { DidStart (start_of self StartKind.bulk_in frame buf.now pm.now log.old) log.old result pm.now log.new
            × (start_reply result.answer ≡ start_row self StartKind.bulk_in frame buf.now pm.now log.old) }
    {
        if !lent_fits(pm, log) {
            return refuse_start(self, Refusal::LentMemory);
        }
        let now = self.observed(frame);
        match now.admit::<BulkIn>(buf.len()) {
            Err(why) => refuse_start(self, why),
            Ok(a) => {
                let BulkIn(x) = a.fields;
                let b = now.driver.begin_bulk_in(
                    x.address, x.endpoint, x.size, x.kind, x.toggle, buf, pm, log,
                );
                now.started(a.next, b)
            }
        }
    }

    // A bulk OUT transfer starts: its first packets are stored in packet memory.
    #[tactic(auto, using(crate::proofs::Admitting::start_unlent, crate::proofs::Replies::start_row_lem))]
    pub fn start_bulk_out(
        self,
        frame: u32,
        buf: &[u8],
        pm: &mut [u8],
        log: &mut [u32],
    ) -> StartResult
        ensures { DidStart (start_of self StartKind.bulk_out frame buf.now pm.old log.old) log.old result pm.new log.new
            × (start_reply result.answer ≡ start_row self StartKind.bulk_out frame buf.now pm.old log.old) }
    {
        if !lent_fits(pm, log) {
            return refuse_start(self, Refusal::LentMemory);
        }
        let now = self.observed(frame);
        match now.admit::<BulkOut>(buf.len()) {
            Err(why) => refuse_start(self, why),
            Ok(a) => {
                let BulkOut(x) = a.fields;
                let b = now.driver.begin_bulk_out(
                    x.address, x.endpoint, x.size, x.kind, x.toggle, buf, pm, log,
                );
                now.started(a.next, b)
            }
        }
    }
}
