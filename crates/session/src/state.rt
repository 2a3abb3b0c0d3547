// What a script's lines leave behind, beside the buffers.
ghost use Rattle.std.specs.Prelude.{◌≡◌, take, None, IfOk};
ghost use Rattle.record.specs.Writer.{append_of, Appended};
ghost use Rattle.session.specs.Leaves.{IsFresh};

use crate::effects::print_effects;
use crate::log::Log;
use crate::output::{Output, put_number};
use crate::print::print_block_end;
use record::refusal::Refusal;
use record::writer::append;
use transfers::answers::Armed;
use transfers::driver::{DeskRule, Driver};

// `memory` bytes of packet memory and `words` of the log are lent to the calls. `bulk` is begin's kind. The record has `used` bytes,
// or was refused. The counts stand beside rooms of a fixed size: nothing here allocates.
#[derive(Clone, Copy)]
pub struct State {
    pub driver: Driver,
    pub pm: [u8; 4096],
    pub memory: usize,
    pub words: usize,
    pub bulk: bool,
    pub record: [u8; 131072],
    pub used: Result<usize, Refusal>,
}

// `transfers`' own `nothing_armed` is of its crate alone.
pub(crate) const NOTHING_ARMED: Armed = Armed {
    setup: None,
    first: None,
    second: None,
};

impl State {
    #[inline(always)]
    pub fn new(rule: DeskRule) -> State
        ensures { IsFresh rule result }
    {
        let mut state = State {
            driver: Driver::new(rule),
            pm: [0; 4096],
            memory: 0,
            words: 0,
            bulk: false,
            record: [0; 131072],
            used: Ok(0),
        };
        state.refresh(rule);
        state
    }

    // As after `fresh`, with a driver of this desk rule.
    #[inline(always)]
    pub fn refresh(&mut self, rule: DeskRule)
        ensures { IsFresh rule self.new }
    {
        self.driver = Driver::new(rule);
        self.pm = [0; 4096];
        self.memory = 4096;
        self.words = 192;
        self.bulk = false;
        self.used = Ok(0);
        self.write_record(NOTHING_ARMED, None);
    }

    // The packet memory that a call is lent.
    pub fn lent(&self) -> &[u8]
        ensures { result.now ≡ take self.now.memory self.now.pm }
    {
        &self.pm[..self.memory.min(4096)]
    }

    pub fn lent_mut(&mut self) -> &mut [u8]
        ensures { result.now ≡ take self.old.memory self.old.pm }
    {
        &mut self.pm[..self.memory.min(4096)]
    }

    // Appends what a call armed, or the count of a transfer that failed; a refusal stands until the next `fresh`.
    pub fn write_record(&mut self, armed: Armed, failed: Option<u32>)
        ensures rest { self.new ≡ record self.old { «record» = self.new.«record»; used = self.new.used } }
        ensures appended { IfOk self.old.used (λ used. Appended (append_of armed failed self.old.pm self.old.«record» used) self.new.used self.new.«record») }
    {
        if let Ok(used) = self.used {
            self.used = append(armed, failed, &self.pm, &mut self.record, used);
        }
    }

    pub(crate) fn print_record(&self, out: &mut Output) {
        match self.used {
            Ok(used) => {
                out.put(b"record ");
                out.put_pairs(&self.record[..used.min(131072)]);
            }
            Err(why) => {
                out.put(b"record refused");
                put_number(out, u8::from(why) as u64);
            }
        }
        out.put(b"\n");
        print_block_end(out)
    }

    // The block of a begin after its answer, and the record. The block's lines are held by the programs' stored output.
    pub fn finish(
        &mut self,
        armed: Armed,
        writes: usize,
        old: &[u8; 4096],
        log: &Log,
        out: &mut Output,
    )
        ensures rest { self.new ≡ record self.old { «record» = self.new.«record»; used = self.new.used } }
        ensures appended { IfOk self.old.used (λ used. Appended (append_of armed None self.old.pm self.old.«record» used) self.new.used self.new.«record») }
    {
        print_effects(out, log, writes, armed, old, &self.pm);
        self.write_record(armed, None);
        print_block_end(out)
    }
}
