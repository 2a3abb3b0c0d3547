// The log that a call is lent, and its lines.
ghost use Rattle.std.specs.Prelude.{◌≡◌, min, length, replicate};

use crate::output::{Output, put_number, put_word};

// What a word of the log is before a call.
const UNWRITTEN: u32 = 0xA5A5_A5A5;

#[derive(Drop)]
pub struct Log {
    words: [u32; 192],
}

impl Log {
    pub fn new() -> Log
        ensures { result.words ≡ replicate 192 0xA5A5_A5A5 }
    {
        Log {
            words: [UNWRITTEN; 192],
        }
    }

    // The first `n` words, or all.
    pub fn lent(&mut self, n: usize) -> &mut [u32]
        ensures { length result.now ≡ min n 192 }
    {
        &mut self.words[..n.min(192)]
    }

    // The writes, and the words past them that are no longer as they were.
    pub(crate) fn print(&self, out: &mut Output, writes: usize) {
        self.print_writes(out, writes);
        self.print_others(out, writes)
    }

    fn print_writes(&self, out: &mut Output, writes: usize) {
        for word in self.words.chunks_exact(3).take(writes) {
            if let [a, b, c] = word {
                out.put(b"w");
                put_word(out, *a);
                put_word(out, *b);
                put_word(out, *c);
                out.put(b"\n");
            }
        }
    }

    fn print_others(&self, out: &mut Output, writes: usize) {
        let from = writes.saturating_mul(3).min(192);
        for (word, i) in self.words[from..].iter().zip(from..) {
            if *word != UNWRITTEN {
                out.put(b"log");
                put_number(out, i as u64);
                put_word(out, *word);
                out.put(b"\n");
            }
        }
    }
}
