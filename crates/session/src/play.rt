// What a script's lines leave behind, and a line that begins no transfer.
ghost use Rattle.std.specs.Prelude.{◌≡◌, ◌++◌, None, Some, min, take, replicate, codes};
ghost use Rattle.std.specs.Fmt.{decimal};
ghost use Rattle.script.specs.Text.{placed};
ghost use Rattle.session.specs.Leaves.{desk_rule_of, IsFresh, Leaves};
ghost use Rattle.session.specs.Prints.{Prints, Puts};
ghost use Rattle.transfers.specs.declared.driver.DeskRule.TheVariants.{One};

use crate::output::{Output, put_number};
use crate::print::{print_block_end, print_ok};
use crate::state::State;
use script::command::{Call, Lent, Rule, Stepping, Stored};
use script::text::put;
use transfers::driver::DeskRule;

// `length` bytes of `buf` are begin's buffer, `own` has a `buffer` line's bytes: as many as the next step is lent, where it is.
// `bytes` are those that the line stored. Rooms of a fixed size with counts beside them: nothing here allocates.
#[derive(Clone, Copy)]
pub struct Session {
    pub state: State,
    pub buf: [u8; 131072],
    pub length: usize,
    pub own: [u8; 131072],
    pub lent: Option<usize>,
    pub bytes: [u8; 131072],
}

// No `From`: the types on both sides are of other crates.
fn desk_rule(rule: Rule) -> DeskRule
    ensures { result ≡ desk_rule_of rule }
{
    match rule {
        Rule::One => DeskRule::One,
        Rule::Two => DeskRule::Two,
    }
}

// The block of a line that can't be read.
pub(crate) fn unreadable(out: &mut Output, number: usize)
    ensures { Puts out.old (codes "line " ++ decimal number ++ codes ": not a line of a script\n.\n") out.new }
{
    out.put(b"line");
    put_number(out, number as u64);
    out.put(b": not a line of a script\n");
    print_block_end(out)
}

impl Session {
    #[inline(always)]
    pub fn new() -> Session
        ensures fresh { IsFresh One result.state }
        ensures lent { result.lent ≡ None }
        ensures length { result.length ≡ 0 }
        ensures zeros { (result.buf ≡ replicate 131072 0) × (result.own ≡ replicate 131072 0) × (result.bytes ≡ replicate 131072 0) }
    {
        Session {
            state: State::new(DeskRule::One),
            buf: [0; 131072],
            length: 0,
            own: [0; 131072],
            lent: None,
            bytes: [0; 131072],
        }
    }

    fn refresh(&mut self, rule: DeskRule)
        ensures { IsFresh rule self.new.state × (self.new.lent ≡ None) }
    {
        self.state.refresh(rule);
        self.length = 0;
        self.lent = None;
    }

    // A begin that is not refused leaves its buffer to the steps.
    pub fn keep(&mut self, count: usize, bulk: bool)
        ensures { self.new.state ≡ record self.old.state { bulk = bulk } }
    {
        let n = count.min(131072);
        put(&mut self.buf, 0, &self.bytes[..n]);
        self.length = n;
        self.state.bulk = bulk;
    }

    fn lend(&mut self, l: Lent)
        ensures { self.new.state ≡ record self.old.state { memory = l.memory; words = l.words } }
    {
        self.state.memory = l.memory;
        self.state.words = l.words;
    }

    fn memory(&mut self, m: Stored)
        ensures { self.new.state ≡ record self.old.state { pm = placed self.old.state.pm m.offset (take m.count self.old.bytes) } }
    {
        let n = m.count.min(131072);
        put(&mut self.state.pm, m.offset, &self.bytes[..n]);
    }

    fn buffer(&mut self, count: usize)
        ensures own { self.new.own ≡ placed self.old.own 0 (take count self.old.bytes) }
        ensures lent { self.new.lent ≡ Some (min count 131072) }
    {
        let n = count.min(131072);
        put(&mut self.own, 0, &self.bytes[..n]);
        self.lent = Some(n);
    }

    fn step_in(&mut self, c: Stepping, out: &mut Output) {
        match self.lent.take() {
            Some(n) => {
                let own = &mut self.own[..];
                let lent = &mut own[..n.min(131072)];
                self.state.step_in(c, lent, &mut self.bytes, out)
            }
            None => {
                let n = self.length.min(131072);
                let buf = &mut self.buf[..];
                self.state.step_in(c, &mut buf[..n], &mut self.bytes, out)
            }
        }
    }

    fn step_out(&mut self, c: Stepping, out: &mut Output) {
        let n = self.length.min(131072);
        match self.lent.take() {
            Some(own) => self.state.step_out(c, &self.own[..own.min(131072)], out),
            None => self.state.step_out(c, &self.buf[..n], out),
        }
    }

    // The blocks of the lines that call the driver are held by the programs' stored output.
    pub fn run(&mut self, number: usize, c: Call, out: &mut Output)
        ensures leaves { Leaves c self.old self.new }
        ensures prints { Prints c number out.old out.new }
    {
        match c {
            Call::Skipped => {}
            Call::Wrong => unreadable(out, number),
            Call::Fresh => {
                self.refresh(self.state.driver.rule);
                print_ok(out)
            }
            Call::Rule(rule) => {
                self.refresh(desk_rule(rule));
                print_ok(out)
            }
            Call::Lend(l) => {
                self.lend(l);
                print_ok(out)
            }
            Call::Memory(m) => {
                self.memory(m);
                print_ok(out)
            }
            Call::Buffer(n) => {
                self.buffer(n);
                print_ok(out)
            }
            Call::StepIn(c) => self.step_in(c, out),
            Call::StepOut(c) => self.step_out(c, out),
            Call::Cancel => self.state.cancel(out),
            Call::Open(c) => self.state.open(c, out),
            Call::Close(n) => self.state.close(n, out),
            Call::Poll(c) => self.state.poll(c, out),
            Call::Irq(c) => self.state.irq(c, out),
            Call::Detect(x) => self.state.detect(x, out),
            Call::Record => self.state.print_record(out),
        }
    }
}
