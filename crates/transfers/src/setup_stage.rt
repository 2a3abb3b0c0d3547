// A step of the SETUP stage.
ghost use Rattle.std.specs.Prelude.{◌≡◌, ◌<◌, ◌≤◌, length, nat_lt};
ghost use Rattle.transfers.specs.State.{control_of};
ghost use Rattle.transfers.specs.Step.{setup_done, setup_step};
ghost use Rattle.transfers.specs.Acts.{Moves};

use crate::driver::{Control, Kind, Request, Stage};
use crate::host_controller::{DataPhase, UsbError};
use crate::log::Log;
use crate::memory::PacketMemory;
use crate::progress::{Progress, enter_in, enter_out, fail, nothing_armed, wait};
use crate::sample::Found;

fn control_of(kind: Kind) -> Control
    ensures { result ≡ control_of kind }
{
    match kind {
        Kind::Control(c) => c,
        Kind::Bulk(_) => Control {
            phase: DataPhase::None,
            wLength: 0,
        },
    }
}

// SETUP is done: the data stage begins, or the status stage where there is no data.
fn setup_done(
    phase: DataPhase,
    x: Request,
    n: u16,
    buf: &[u8],
    pm: &mut PacketMemory,
    log: &mut Log<'_>,
) -> Progress
    requires { (x.length ≡ length buf.now) × (log.old.used ≤ 20) }
    ensures { Moves (setup_done phase (nat_lt x.length n) x n buf.now pm.old) log.old result pm.new log.new }
{
    match phase {
        DataPhase::None => enter_in(x, true, 0, log),
        DataPhase::In if n as usize <= x.length => enter_in(x, false, n, log),
        DataPhase::Out if n as usize <= x.length => enter_out(x, false, 0, n, buf, pm, log),
        _ => fail(x, false, UsbError::BufferTooSmall),
    }
}

#[tactic(auto, unfolding(crate::specs::Step::setup_step))]
pub(crate) fn setup_step(
    found: Found,
    x: Request,
    buf: &[u8],
    pm: &mut PacketMemory,
    log: &mut Log<'_>,
) -> Progress
    requires { (x.length ≡ length buf.now) × (log.old.used ≤ 20) }
    ensures { Moves (setup_step found x buf.now pm.old) log.old result pm.new log.new }
{
    match found {
        Found::Complete => {
            let c = control_of(x.kind);
            setup_done(c.phase, x, c.wLength, buf, pm, log)
        }
        Found::Failed(e) => fail(x, false, e),
        Found::Neither => wait(x, Stage::Setup, true, nothing_armed()),
    }
}
