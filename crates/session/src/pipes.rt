// The pipes, the interrupt routine and detection.
use crate::answers::Outcome;
use crate::begin::extras_of;
use crate::log::Log;
use crate::output::Output;
use crate::print::{print_block_end, put_answer};
use crate::state::State;
use pool::pipe::PipeNumber;
use script::command::{Interrupt, Opening, Polling};
use transfers::answers::Step;
use transfers::host_controller::InterruptPacket;
use transfers::irq::on_irq;
use transfers::pipes::{PipeSample, Poll};

fn outcome(poll: Poll, packet: InterruptPacket) -> Outcome {
    match poll {
        Poll::Packet => Outcome::Packet(packet),
        Poll::Waiting => Outcome::Step(Step::Waiting(false), None),
    }
}

impl State {
    pub(crate) fn open(&mut self, c: Opening, out: &mut Output) {
        let mut log = Log::new();
        let extras = extras_of(c.preamble);
        let lent = log.lent(self.words);
        let o = self
            .driver
            .open(c.address, extras, c.endpoint, c.size, c.interval, lent);
        self.driver = o.next;
        put_answer(out, o.answer.map(|pipe| Outcome::Pipe(pipe)));
        log.print(out, o.writes);
        print_block_end(out)
    }

    pub(crate) fn close(&mut self, pipe: u8, out: &mut Output) {
        let c = self.driver.close(PipeNumber(pipe));
        self.driver = c.next;
        put_answer(out, c.answer.map(|()| "closed"));
        print_block_end(out)
    }

    pub(crate) fn poll(&mut self, c: Polling, out: &mut Output) {
        let mut log = Log::new();
        let sample = PipeSample {
            buffer: c.buffer,
            address: c.target,
        };
        let p = self.driver.poll(
            PipeNumber(c.pipe),
            sample,
            self.lent(),
            log.lent(self.words),
        );
        self.driver = p.next;
        put_answer(out, p.answer.map(|poll| outcome(poll, p.packet)));
        log.print(out, p.writes);
        print_block_end(out)
    }

    pub(crate) fn irq(&self, c: Interrupt, out: &mut Output) {
        let mut log = Log::new();
        let w = on_irq(c.ints, c.status, log.lent(self.words));
        put_answer(out, w.answer.map(|wake| Outcome::Wake(wake)));
        log.print(out, w.writes);
        print_block_end(out)
    }

    pub(crate) fn detect(&mut self, status: u32, out: &mut Output) {
        let mut log = Log::new();
        let d = self.driver.detect(status, log.lent(self.words));
        self.driver = d.next;
        put_answer(out, d.answer.map(|device| Outcome::Device(device)));
        log.print(out, d.writes);
        print_block_end(out)
    }
}
