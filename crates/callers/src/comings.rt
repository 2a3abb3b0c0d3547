// Comings and looks.
use crate::state::Callers;
use host::controller::{HostController, SubmitResult};
use script::command::{Bulk, Control};
use session::begin::{extras_of, kind_of, packet_of};
use session::output::{Output, put_number};
use session::print::{Came, print_block_end, put_answer};
use transfers::host_controller::DataPhase;
use transfers::refusal::Refusal;
use transfers::wire::Direction;

// Whose turn it is, as an answer's line spells it.
#[derive(Clone, Copy)]
struct Turn(Option<u8>);

impl Came for Turn {
    fn put(self, out: &mut Output) {
        match self.0 {
            Some(c) => {
                out.put(b"turn");
                put_number(out, c as u64);
            }
            None => out.put(b"nobody"),
        }
    }
}

fn submit_bulk(
    host: HostController,
    caller: u8,
    direction: Direction,
    b: Bulk,
    frame: u32,
) -> SubmitResult {
    let kind = kind_of(b.variable);
    match direction {
        Direction::In => host.submit_bulk_in(
            caller, b.address, b.endpoint, b.size, kind, b.toggle, b.count, frame,
        ),
        Direction::Out => host.submit_bulk_out(
            caller, b.address, b.endpoint, b.size, kind, b.toggle, b.count, frame,
        ),
    }
}

impl Callers {
    fn submitted(&mut self, r: SubmitResult, out: &mut Output) {
        self.set_host(r.next);
        put_answer(out, r.answer.map(|()| "waiting"));
        print_block_end(out)
    }

    pub fn come_control(&mut self, caller: u8, phase: DataPhase, c: Control, out: &mut Output) {
        let r = self.host().submit_control(
            caller,
            c.address,
            extras_of(c.preamble),
            c.size,
            packet_of(c.setup),
            phase,
            c.count,
            self.frame,
        );
        self.submitted(r, out)
    }

    pub fn come_bulk(&mut self, caller: u8, direction: Direction, b: Bulk, out: &mut Output) {
        let r = submit_bulk(self.host(), caller, direction, b, self.frame);
        self.submitted(r, out)
    }

    pub fn look(&mut self, out: &mut Output) {
        let t = self.host().whose_turn(self.frame);
        self.set_host(t.next);
        put_answer(out, Ok::<Turn, Refusal>(Turn(t.answer)));
        print_block_end(out)
    }
}
