// A step: the poll, and the stage that follows it.
ghost use Rattle.std.specs.Prelude.{◌≡◌, ℕ, ◌+◌, ◌≤◌, true, false, List, [], ◌∷◌, length, MatchResult};
ghost use Rattle.transfers.specs.Answers.{nothing_armed};
ghost use Rattle.transfers.specs.Writes.{awaits};
ghost use Rattle.transfers.specs.Outcome.{waits};
ghost use Rattle.transfers.specs.Step.{lent, stage_step, acts};
ghost use Rattle.transfers.specs.Calls.{held_toggle, refuses, may_step, step_of};
ghost use Rattle.transfers.specs.Ready.{Within, InIsStatus, Admitted, Refused};
ghost use Rattle.transfers.specs.Acts.{told, Tells, Moves, Acts, Steps};

use crate::answers::Step;
use crate::driver::{Run, Stage};
use crate::in_stage::in_step;
use crate::log::Log;
use crate::memory::{PacketMemory, lent_fits};
use crate::out_stage::out_step;
use crate::progress::{Progress, nothing_armed, toggle_in, wait};
use crate::refusal::Refusal;
use crate::registers::{ALL, ENDING_MASK, INTE, POLLED, SIE_STATUS};
use crate::sample::{Found, Sample, poll_status};
use crate::setup_stage::setup_step;
use crate::state::{is_sound, serves};

// A status stage sends nothing: the Rust's `&[]`.
fn lent(status: bool, buf: &[u8]) -> &[u8]
    ensures { result.now ≡ lent status buf.now }
{
    if status { &[] } else { buf }
}

// `found`, the sample's `buffers`, the caller's buffer, packet memory and the log are read or lent apart from here on: one struct of them would lend all of them to what needs one.
// A stage that leaves the caller's buffer: an IN stage here is a status stage, which fills the Rust's `&mut []`.
fn stage_out(
    found: Found,
    run: Run,
    buffers: u32,
    buf: &[u8],
    pm: &mut PacketMemory,
    log: &mut Log<'_>,
) -> Progress
    requires { (run.request.length ≡ length buf.now) × Within run.stage buf.now × InIsStatus run.stage × (log.old.used ≤ 20) }
    ensures { Moves (stage_step found run.request run.stage buffers buf.now pm.old) log.old result pm.new log.new }
{
    let x = run.request;
    match run.stage {
        Stage::Setup => setup_step(found, x, buf, pm, log),
        Stage::In(st) => in_step(found, x, st, buffers, &mut [], pm, log),
        Stage::Out(st) => out_step(found, x, st, buffers, lent(st.status, buf), pm, log),
    }
}

// Only an IN stage of data fills the caller's buffer.
fn stage_in(
    found: Found,
    run: Run,
    buffers: u32,
    buf: &mut [u8],
    pm: &mut PacketMemory,
    log: &mut Log<'_>,
) -> Progress
    requires { (run.request.length ≡ length buf.old) × Within run.stage buf.old × (log.old.used ≤ 20) }
    ensures { Acts (stage_step found run.request run.stage buffers buf.old pm.old) log.old result pm.new buf.new log.new }
{
    match run.stage {
        Stage::In(st) if !st.status => in_step(found, run.request, st, buffers, buf, pm, log),
        _ => stage_out(found, run, buffers, buf, pm, log),
    }
}

// The poll is not ready: what it waits for is enabled.
#[inline(always)]
fn pending(run: Run, log: &mut Log<'_>) -> Progress
    requires { log.old.used ≤ 20 }
    ensures { (m b : List ℕ) → Tells (waits run.request run.stage false nothing_armed (awaits ∷ []) m b) log.old result log.new }
{
    log.put(INTE, ENDING_MASK, ENDING_MASK);
    wait(run.request, run.stage, false, nothing_armed())
}

// `act_in` and `act_out`, and the steps below, stay apart by `&mut [u8]` and `&[u8]`: one function over both would take the stage as a closure, or the buffer by a trait with the stage as a ghost member, and its clauses would speak of that besides `acts`, for four lines that are shared.
#[tactic(auto, unfolding(crate::specs::Step::acts))]
fn act_in(run: Run, s: Sample, buf: &mut [u8], pm: &mut PacketMemory, log: &mut Log<'_>) -> Progress
    requires { (run.request.length ≡ length buf.old) × Within run.stage buf.old × (log.old.used ≤ 19) }
    ensures { Acts (acts run.request run.stage s buf.old pm.old) log.old result pm.new buf.new log.new }
{
    log.put(SIE_STATUS, ALL, POLLED);
    match poll_status(s.status, s.intr) {
        None => pending(run, log),
        Some(found) => stage_in(found, run, s.buffers, buf, pm, log),
    }
}

#[tactic(auto, unfolding(crate::specs::Step::acts))]
fn act_out(run: Run, s: Sample, buf: &[u8], pm: &mut PacketMemory, log: &mut Log<'_>) -> Progress
    requires { (run.request.length ≡ length buf.now) × Within run.stage buf.now × InIsStatus run.stage × (log.old.used ≤ 19) }
    ensures { Moves (acts run.request run.stage s buf.now pm.old) log.old result pm.new log.new }
{
    log.put(SIE_STATUS, ALL, POLLED);
    match poll_status(s.status, s.intr) {
        None => pending(run, log),
        Some(found) => stage_out(found, run, s.buffers, buf, pm, log),
    }
}

pub(crate) fn held_toggle(t: Option<Run>) -> bool
    ensures { result ≡ held_toggle t }
{
    match t {
        None => false,
        Some(run) => toggle_in(run.request.kind),
    }
}

#[inline(always)]
fn refuse(t: Option<Run>, e: Refusal) -> Progress
    ensures { result ≡ told (refuses t e [] []) }
{
    let toggle = held_toggle(t);
    Progress {
        next: t,
        answer: Err(e),
        toggle,
        moved: toggle,
        armed: nothing_armed(),
    }
}

#[inline(always)]
pub(crate) fn may_step(filling: bool, run: Run) -> bool
    ensures { result ≡ may_step filling run }
{
    serves(filling, run.request.kind, run.stage) && is_sound(run.request, run.stage)
}

// The checks of a step, in their order; `n` is the length of the buffer lent.
#[tactic(auto, unfolding(crate::specs::Calls::step_of))]
#[inline(always)]
fn admit(filling: bool, t: Option<Run>, n: usize, pm: &[u8], log: &[u32]) -> Result<Run, Refusal>
    ensures { MatchResult result (Admitted filling t n pm.now log.now) (Refused filling t n pm.now log.now) }
{
    if !lent_fits(pm, log) {
        return Err(Refusal::LentMemory);
    }
    let run = t.ok_or(Refusal::State)?;
    if !may_step(filling, run) {
        return Err(Refusal::State);
    }
    if n != run.request.length {
        return Err(Refusal::LentMemory);
    }
    Ok(run)
}

// A step and the count of its writes.
pub(crate) fn step_in(
    t: Option<Run>,
    s: Sample,
    buf: &mut [u8],
    pm: &mut [u8],
    log: &mut [u32],
) -> (Progress, usize)
    ensures { let o = step_of true t s buf.old pm.old log.old in Steps o log.old result.0 result.1 pm.new log.new × (buf.new ≡ o.buffer) }
{
    match admit(true, t, buf.len(), pm, log) {
        Err(why) => (refuse(t, why), 0),
        Ok(run) => {
            let whole = pm.as_mut_array().unwrap();
            let mut log = Log {
                words: log,
                used: 0,
            };
            let progress = act_in(run, s, buf, whole, &mut log);
            (progress, log.used)
        }
    }
}

pub(crate) fn step_out(
    t: Option<Run>,
    s: Sample,
    buf: &[u8],
    pm: &mut [u8],
    log: &mut [u32],
) -> (Progress, usize)
    ensures { Steps (step_of false t s buf.now pm.old log.old) log.old result.0 result.1 pm.new log.new }
{
    match admit(false, t, buf.len(), pm, log) {
        Err(why) => (refuse(t, why), 0),
        Ok(run) => {
            let whole = pm.as_mut_array().unwrap();
            let mut log = Log {
                words: log,
                used: 0,
            };
            let progress = act_out(run, s, buf, whole, &mut log);
            (progress, log.used)
        }
    }
}
