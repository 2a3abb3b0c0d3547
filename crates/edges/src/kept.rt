// Whether two states have the same turns, shares, spent counts and frame, and callers that came with the same numbers.
// By hand: a derived equality would compare more than these, and stand in four crates below, none of which compares these types.
use dispatcher::{Caller, Dispatcher};
use host::controller::HostController;
use host::fields::{BulkFields, ControlFields, Fields};

fn same_control(a: ControlFields, b: ControlFields) -> bool {
    a.address == b.address && a.size == b.size && a.length == b.length
}

fn same_bulk(a: BulkFields, b: BulkFields) -> bool {
    a.address == b.address && a.endpoint == b.endpoint && a.size == b.size && a.length == b.length
}

fn same_fields(a: Fields, b: Fields) -> bool {
    match (a, b) {
        (Fields::Control(x), Fields::Control(y)) => same_control(x, y),
        (Fields::BulkIn(x), Fields::BulkIn(y)) => same_bulk(x, y),
        (Fields::BulkOut(x), Fields::BulkOut(y)) => same_bulk(x, y),
        _ => false,
    }
}

fn same_caller(a: Caller, b: Caller) -> bool {
    a.pending == b.pending && a.requested == b.requested && a.quota == b.quota && a.used == b.used
}

fn same_dispatcher(a: Dispatcher, b: Dispatcher) -> bool {
    a.turn == b.turn
        && a.last == b.last
        && a.frame == b.frame
        && a.callers
            .iter()
            .zip(&b.callers)
            .all(|(x, y)| same_caller(*x, *y))
}

fn same_submissions(a: [Fields; 8], b: [Fields; 8]) -> bool {
    a.iter().zip(&b).all(|(x, y)| same_fields(*x, *y))
}

pub(crate) fn is_kept(before: HostController, after: HostController) -> bool {
    same_dispatcher(before.dispatcher, after.dispatcher)
        && same_submissions(before.submissions, after.submissions)
}
