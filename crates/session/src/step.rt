// The steps and the cancel.
use crate::answers::Outcome;
use crate::effects::print_effects;
use crate::log::Log;
use crate::output::{Output, put_number};
use crate::print::{print_block_end, put_answer};
use crate::runs::print_runs;
use crate::state::{NOTHING_ARMED, State};
use script::command::Stepping;
use transfers::control::Stepped;
use transfers::sample::Sample;

fn sample_of(c: Stepping) -> Sample {
    Sample {
        status: c.status,
        intr: c.intr,
        buffers: c.buffers,
    }
}

// Of a transfer that failed or was cancelled, a bulk's toggle and how many entries it had armed.
fn print_failed(out: &mut Output, failed: Option<u32>, toggle: Option<bool>) {
    let Some(count) = failed else {
        return;
    };
    if let Some(toggle) = toggle {
        out.put(b"toggle");
        put_number(out, u8::from(toggle) as u64);
        out.put(b"\n");
    }
    out.put(b"failed");
    put_number(out, count as u64);
    out.put(b"\n");
}

impl State {
    // The toggle is a bulk's; a control has none.
    fn report(&mut self, p: Stepped, old: &[u8; 4096], log: &Log, out: &mut Output) {
        let toggle = self.bulk.then_some(p.toggle);
        self.driver = p.next;
        put_answer(out, p.answer.map(|step| Outcome::Step(step, toggle)));
        print_failed(out, p.failed, toggle);
        print_effects(out, log, p.writes, p.armed, old, &self.pm);
        self.write_record(p.armed, p.failed);
    }

    // A step that is lent `buf`; what this was before goes into `before`.
    pub(crate) fn step_in(
        &mut self,
        c: Stepping,
        buf: &mut [u8],
        before: &mut [u8; 131072],
        out: &mut Output,
    ) {
        let mut log = Log::new();
        let old = self.pm;
        let before = &mut before[..buf.len().min(131072)];
        before.copy_from_slice(&buf[..before.len()]);
        let words = log.lent(self.words);
        let p = self
            .driver
            .step_in(sample_of(c), buf, self.lent_mut(), words);
        self.report(p, &old, &log, out);
        print_runs(out, "buf", before, buf);
        print_block_end(out)
    }

    pub(crate) fn step_out(&mut self, c: Stepping, buf: &[u8], out: &mut Output) {
        let mut log = Log::new();
        let old = self.pm;
        let words = log.lent(self.words);
        let p = self
            .driver
            .step_out(sample_of(c), buf, self.lent_mut(), words);
        self.report(p, &old, &log, out);
        print_block_end(out)
    }

    pub(crate) fn cancel(&mut self, out: &mut Output) {
        let c = self.driver.cancel();
        self.driver = c.next;
        put_answer(out, c.answer.map(|()| "cancelled"));
        print_failed(out, c.failed, self.bulk.then_some(c.toggle));
        self.write_record(NOTHING_ARMED, c.failed);
        print_block_end(out)
    }
}
