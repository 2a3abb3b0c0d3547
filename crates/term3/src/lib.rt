// Theorems over the calls of the host controller: term 3 (`specs/HostCalls.antt`), whose turn it is (`specs/Turns.antt`), what is charged in each frame (`specs/Frames.antt`), and what the calls do to the driver (`specs/Driven.antt`).
// The functions here are the host controller's own, under contracts in the words of these theorems: a function of `host` whose own contract says less, or something else, is refused here. IN and OUT are functions of their own, as they are there.
#![tactic(auto)]

ghost use Rattle.std.specs.Prelude.{◌≡◌};
ghost use Rattle.transfers.specs.declared.wire.Direction.TheVariants.{In, Out};
ghost use Rattle.host.specs.Start.{StartKind};
ghost use Rattle.record.specs.Calls.{control_begin, bulk_begin};
ghost use Rattle.term3.specs.HostCalls.{fresh_for};
ghost use Rattle.term3.specs.Ties.{Submitted, Looked, Started};

use cutting::transfer_type::TransferType;
use host::controller::{HostController, SubmitResult, TurnResult};
use host::start::StartResult;
use transfers::driver::DeskRule;
use transfers::host_controller::{DataPhase, TransferExtras};
use transfers::wire::SetupPacket;

pub fn new(rule: DeskRule, shares: [u32; 8]) -> HostController
    ensures { result ≡ fresh_for (record { rule = rule; shares = shares }) }
{
    HostController::new(rule, shares)
}

#[tactic(auto, using(crate::proofs::Tied::tied))]
pub fn submit_control(
    host: HostController,
    caller: u8,
    address: u8,
    extras: TransferExtras,
    size: u8,
    setup: SetupPacket,
    phase: DataPhase,
    length: usize,
    frame: u32,
) -> SubmitResult
    ensures { Submitted host caller (control_begin address extras size setup phase) length frame result }
{
    host.submit_control(caller, address, extras, size, setup, phase, length, frame)
}

#[tactic(auto, using(crate::proofs::Tied::tied))]
pub fn submit_bulk_in(
    host: HostController,
    caller: u8,
    address: u8,
    endpoint: u8,
    size: u16,
    kind: TransferType,
    toggle: bool,
    length: usize,
    frame: u32,
) -> SubmitResult
    ensures { Submitted host caller (bulk_begin In address endpoint size kind toggle) length frame result }
{
    host.submit_bulk_in(caller, address, endpoint, size, kind, toggle, length, frame)
}

#[tactic(auto, using(crate::proofs::Tied::tied))]
pub fn submit_bulk_out(
    host: HostController,
    caller: u8,
    address: u8,
    endpoint: u8,
    size: u16,
    kind: TransferType,
    toggle: bool,
    length: usize,
    frame: u32,
) -> SubmitResult
    ensures { Submitted host caller (bulk_begin Out address endpoint size kind toggle) length frame result }
{
    host.submit_bulk_out(caller, address, endpoint, size, kind, toggle, length, frame)
}

#[tactic(auto, using(crate::proofs::Tied::tied))]
pub fn whose_turn(host: HostController, frame: u32) -> TurnResult
    ensures { Looked host frame result }
{
    host.whose_turn(frame)
}

#[tactic(auto, unfolding(crate::specs::Calls::call))]
pub fn start_control(
    host: HostController,
    frame: u32,
    buf: &[u8],
    pm: &[u8],
    log: &mut [u32],
) -> StartResult
    ensures { Started host StartKind.control frame buf.now pm.now log.old result pm.now log.new }
{
    host.start_control(frame, buf, pm, log)
}

#[tactic(auto, unfolding(crate::specs::Calls::call))]
pub fn start_bulk_in(
    host: HostController,
    frame: u32,
    buf: &[u8],
    pm: &[u8],
    log: &mut [u32],
) -> StartResult
    ensures { Started host StartKind.bulk_in frame buf.now pm.now log.old result pm.now log.new }
{
    host.start_bulk_in(frame, buf, pm, log)
}

#[tactic(auto, unfolding(crate::specs::Calls::call))]
pub fn start_bulk_out(
    host: HostController,
    frame: u32,
    buf: &[u8],
    pm: &mut [u8],
    log: &mut [u32],
) -> StartResult
    ensures { Started host StartKind.bulk_out frame buf.now pm.old log.old result pm.new log.new }
{
    host.start_bulk_out(frame, buf, pm, log)
}
