// The starts.
use crate::line::Kind;
use crate::state::Callers;
use host::start::StartResult;
use session::log::Log;
use session::output::{Output, put_number};
use session::print::{Came, put_answer};

// The caller whose transfer a start begins, as the answer's line spells it.
#[derive(Clone, Copy)]
struct Started(u8);

impl Came for Started {
    fn put(self, out: &mut Output) {
        out.put(b"started");
        put_number(out, self.0 as u64);
    }
}

impl Callers {
    // The host's starts, on what is lent.
    fn start_on(&mut self, kind: Kind, count: usize, log: &mut [u32]) -> StartResult {
        let host = self.host();
        let buf = &self.session.bytes[..count.min(131072)];
        let state = &mut self.session.state;
        match kind {
            Kind::Control => host.start_control(self.frame, buf, state.lent(), log),
            Kind::BulkIn => host.start_bulk_in(self.frame, buf, state.lent(), log),
            Kind::BulkOut => host.start_bulk_out(self.frame, buf, state.lent_mut(), log),
        }
    }

    // A bulk IN's buffer is all 0 at first.
    pub fn start(&mut self, kind: Kind, count: usize, out: &mut Output) {
        let mut log = Log::new();
        let old = self.session.state.pm;
        if matches!(kind, Kind::BulkIn) {
            self.session.bytes = [0; 131072];
        }
        let words = log.lent(self.session.state.words);
        let r = self.start_on(kind, count, words);
        if r.answer.is_ok() {
            self.session.keep(count, !matches!(kind, Kind::Control));
        }
        self.set_host(r.next);
        put_answer(out, r.answer.map(|caller| Started(caller)));
        self.session
            .state
            .finish(r.armed, r.writes, &old, &log, out)
    }
}
