// The log of a call: three words a register write, from word 0 on.
ghost use Rattle.std.specs.Prelude.{◌≤◌, length};

// The words lent, with room for 64 writes, and how many stand in them. It is made where their length is checked, by the literal: a `new` would need a clause to say that the words are these.
// How many writes may stand in it differs from place to place in a step, so each `requires` has its own number.
#[derive(Drop)]
pub(crate) struct Log<'a> {
    pub words: &'a mut [u32],
    pub used: usize,
    ghost room: { 192 ≤ length words.now },
}

impl Log<'_> {
    ghost use Rattle.std.specs.Prelude.{◌<◌, [], ◌∷◌};
    ghost use Rattle.transfers.specs.Log.{wr, delay};
    ghost use Rattle.transfers.specs.Puts.{Puts};

    #[inline(always)]
    pub(crate) fn put(&mut self, register: u32, mask: u32, value: u32)
        requires { self.old.used < 64 }
        ensures { Puts self.old (wr register mask value ∷ []) self.new }
    {
        let i = 3 * self.used;
        self.words[i] = register;
        self.words[i + 1] = mask;
        self.words[i + 2] = value;
        self.used += 1;
    }

    // `cortex_m::asm::delay(12)`.
    #[inline(always)]
    pub(crate) fn put_delay(&mut self)
        requires { self.old.used < 64 }
        ensures { Puts self.old (delay ∷ []) self.new }
    {
        self.put(0, 0, 12)
    }
}
