// The begins.
use script::command::{Bulk, Control};
use session::begin::{extras_of, kind_of, packet_of};
use session::log::Log;
use session::output::Output;
use session::play::Session;
use session::print::put_answer;
use transfers::control::Begun;
use transfers::host_controller::DataPhase;
use transfers::wire::Direction;

#[derive(Clone, Copy)]
pub enum Begin {
    Control(DataPhase, Control),
    Bulk(Direction, Bulk),
}

impl Begin {
    fn is_in(self) -> bool {
        matches!(
            self,
            Begin::Control(DataPhase::In, _) | Begin::Bulk(Direction::In, _)
        )
    }

    fn is_bulk(self) -> bool {
        matches!(self, Begin::Bulk(_, _))
    }

    fn count(self) -> usize {
        match self {
            Begin::Control(_, c) => c.count,
            Begin::Bulk(_, b) => b.count,
        }
    }
}

// The driver's begins, on what is lent.
fn begin_control(s: &Session, phase: DataPhase, c: Control, log: &mut [u32]) -> Begun {
    s.state.driver.begin_control(
        c.address,
        extras_of(c.preamble),
        c.size,
        packet_of(c.setup),
        phase,
        &s.bytes[..c.count.min(131072)],
        s.state.lent(),
        log,
    )
}

fn begin_bulk(s: &mut Session, direction: Direction, b: Bulk, log: &mut [u32]) -> Begun {
    let driver = s.state.driver;
    let kind = kind_of(b.variable);
    let buf = &s.bytes[..b.count.min(131072)];
    match direction {
        Direction::In => driver.begin_bulk_in(
            b.address,
            b.endpoint,
            b.size,
            kind,
            b.toggle,
            buf,
            s.state.lent(),
            log,
        ),
        Direction::Out => driver.begin_bulk_out(
            b.address,
            b.endpoint,
            b.size,
            kind,
            b.toggle,
            buf,
            s.state.lent_mut(),
            log,
        ),
    }
}

impl Begin {
    fn on(self, s: &mut Session, log: &mut [u32]) -> Begun {
        match self {
            Begin::Control(phase, c) => begin_control(s, phase, c, log),
            Begin::Bulk(direction, b) => begin_bulk(s, direction, b, log),
        }
    }

    // An IN's buffer is all 0 at first.
    pub fn play(self, s: &mut Session, out: &mut Output) {
        let mut log = Log::new();
        let old = s.state.pm;
        if self.is_in() {
            s.bytes = [0; 131072];
        }
        let words = log.lent(s.state.words);
        let begun = self.on(s, words);
        if begun.answer.is_ok() {
            s.keep(self.count(), self.is_bulk());
        }
        s.state.driver = begun.next;
        put_answer(out, begun.answer.map(|()| "begun"));
        s.state.finish(begun.armed, begun.writes, &old, &log, out)
    }
}
