// Which call serves a transfer, and which states are sound.
ghost use Rattle.std.specs.Prelude.{◌≡◌};
ghost use Rattle.transfers.specs.State.{fills_of, is_in, fills, phase_has, kind_has, is_control, stage_fits, served, address_good, endpoint_good, size_good, kind_good, request_good, moving_good, stage_good, sound};

use crate::driver::{Kind, Request, Stage};
use crate::host_controller::DataPhase;
use crate::progress::stage_length;
use crate::wire::Direction;

fn is_in(d: Direction) -> bool
    ensures { result ≡ is_in d }
{
    matches!(d, Direction::In)
}

fn phase_fills(phase: DataPhase) -> bool
    ensures { result ≡ fills_of phase }
{
    !matches!(phase, DataPhase::Out)
}

fn kind_fills(kind: Kind) -> bool
    ensures { result ≡ fills kind }
{
    match kind {
        Kind::Control(c) => phase_fills(c.phase),
        Kind::Bulk(b) => is_in(b.direction),
    }
}

fn phase_has(phase: DataPhase, inward: bool, status: bool) -> bool
    ensures { result ≡ phase_has phase inward status }
{
    match phase {
        DataPhase::In => inward != status,
        DataPhase::Out => inward == status,
        DataPhase::None => inward && status,
    }
}

fn kind_has(kind: Kind, inward: bool, status: bool) -> bool
    ensures { result ≡ kind_has kind inward status }
{
    match kind {
        Kind::Control(c) => phase_has(c.phase, inward, status),
        Kind::Bulk(b) => !status && inward == is_in(b.direction),
    }
}

fn is_control(kind: Kind) -> bool
    ensures { result ≡ is_control kind }
{
    matches!(kind, Kind::Control(_))
}

fn stage_fits(kind: Kind, stage: Stage) -> bool
    ensures { result ≡ stage_fits kind stage }
{
    match stage {
        Stage::Setup => is_control(kind),
        Stage::In(st) => kind_has(kind, true, st.status),
        Stage::Out(st) => kind_has(kind, false, st.status),
    }
}

// Whether a call that lends a buffer to fill, or one to send, serves this transfer.
#[tactic(auto, unfolding(crate::specs::State::served))]
pub(crate) fn serves(filling: bool, kind: Kind, stage: Stage) -> bool
    ensures { result ≡ served filling kind stage }
{
    filling == kind_fills(kind) && stage_fits(kind, stage)
}

pub(crate) fn address_good(address: u8) -> bool
    ensures { result ≡ address_good address }
{
    address <= 127
}

pub fn endpoint_good(endpoint: u8) -> bool
    ensures { result ≡ endpoint_good endpoint }
{
    1 <= endpoint && endpoint <= 15
}

pub(crate) fn size_good(size: u16) -> bool
    ensures { result ≡ size_good size }
{
    1 <= size && size <= 64
}

fn kind_good(kind: Kind) -> bool
    ensures { result ≡ kind_good kind }
{
    match kind {
        Kind::Control(_) => true,
        Kind::Bulk(b) => endpoint_good(b.endpoint),
    }
}

fn request_good(x: Request) -> bool
    ensures { result ≡ request_good x }
{
    address_good(x.address) && size_good(x.size as u16) && kind_good(x.kind)
}

fn moving_good(inflight: u8, offset: u16, remain: u16, n: usize, length: usize) -> bool
    ensures { result ≡ moving_good inflight offset remain n length }
{
    inflight <= 2 && offset as usize + remain as usize <= n && n <= length
}

fn stage_good(x: Request, stage: Stage) -> bool
    ensures { result ≡ stage_good x stage }
{
    match stage {
        Stage::Setup => true,
        Stage::In(st) => moving_good(
            st.inflight,
            st.offset,
            st.remain,
            stage_length(x, st.status),
            x.length,
        ),
        Stage::Out(st) => moving_good(
            st.inflight,
            st.offset,
            st.remain,
            stage_length(x, st.status),
            x.length,
        ),
    }
}

#[tactic(auto, unfolding(crate::specs::State::sound))]
pub(crate) fn is_sound(x: Request, stage: Stage) -> bool
    ensures { result ≡ sound x stage }
{
    request_good(x) && stage_good(x, stage)
}
