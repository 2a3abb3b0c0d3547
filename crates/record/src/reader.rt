// The record's reader.
ghost use Rattle.std.specs.Prelude.{◌≡◌, ◌<◌, ◌≤◌};
ghost use Rattle.record.specs.Grammar.{Bytes};
ghost use Rattle.record.specs.Reader.{turn_entry};
ghost use Rattle.record.specs.Refusal.{check_reply};
ghost use Rattle.record.specs.Verdict.{Verdict};

use crate::look::{Look, head_right, look_at, version};
use crate::refusal::Refusal;
use crate::scan::{
    Scan, feed_failed, feed_out, feed_setup, kept_items, may_end, run_on, starts_out,
};

// How far the reader has come: the next entry's position, what may come, the entries of the last item, and the items begun that didn't fail.
#[derive(Clone, Copy)]
pub struct Progress {
    pub at: usize,
    pub scan: Scan,
    pub run: usize,
    pub count: usize,
}

impl Progress {
    // After one more entry.
    fn take(self, two: bool, entry: Look) -> Result<Progress, Refusal>
        requires { (self.at < 0x8000_0000_0000_0000) × (self.count ≤ self.at) × (self.run ≤ self.at) }
        ensures { result ≡ turn_entry two entry self }
    {
        let (next, length, run, count) = match entry {
            Look::Setup(a, w) => (feed_setup(self.scan, a, w), 10, 1, self.count + 1),
            Look::Out(x) => {
                let begun = starts_out(self.scan, x.endpoint);
                (
                    feed_out(self.scan, x),
                    6 + x.length as usize,
                    run_on(begun, self.run),
                    self.count + begun,
                )
            }
            Look::Failed(_) if !two => return Err(Refusal::Field),
            Look::Failed(n) => {
                let m = n as usize;
                (
                    feed_failed(self.scan, self.run, m),
                    5,
                    0,
                    kept_items(m, self.count),
                )
            }
        };
        let scan = next.ok_or(Refusal::Grammar)?;
        Ok(Progress {
            at: self.at + length,
            scan,
            run,
            count,
        })
    }
}

// The number for which a record is refused, or the count of its transfers: what its bytes deserve, in the grammar's terms.
pub fn check(s: &[u8]) -> Result<usize, Refusal>
    ensures { Bytes s.now → Verdict s.now (check_reply result) }
{
    if !head_right(s) {
        return Err(Refusal::Mark);
    }
    let two = version(s) == 2;
    let mut p = Progress {
        at: 5,
        scan: Scan::Between,
        run: 0,
        count: 0,
    };
    // An entry's length tells the next position.
    while let Some(entry) = look_at(s, p.at)? {
        p = p.take(two, entry)?;
    }
    if !may_end(p.scan) {
        return Err(Refusal::Grammar);
    }
    Ok(p.count)
}
