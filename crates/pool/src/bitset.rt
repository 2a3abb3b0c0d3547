ghost use Rattle.std.specs.Prelude.{◌≡◌};
ghost use Rattle.pool.specs.Set.{has, insert, remove, set_any_of};

// A set of the numbers 0 to 31: bit n is 1 where n is a member.
#[derive(Clone, Copy)]
pub struct BitSet(pub u32);

// The set after set_any, and the number that it took.
#[derive(Clone, Copy)]
pub struct Taken {
    pub set: BitSet,
    pub number: Option<u8>,
}

impl BitSet {
    pub fn new() -> BitSet
        ensures { result.0 ≡ 0 }
    {
        BitSet(0)
    }

    // Where the Rust asserts n < 32, a larger n changes nothing.
    pub fn set(self, n: u8) -> BitSet
        ensures { result.0 ≡ insert self.0 n }
    {
        if n < 32 {
            BitSet(self.0 | (1 << n))
        } else {
            self
        }
    }

    pub fn clear(self, n: u8) -> BitSet
        ensures { result.0 ≡ remove self.0 n }
    {
        if n < 32 {
            BitSet(self.0 & !(1 << n))
        } else {
            self
        }
    }

    pub fn contains(self, n: u8) -> bool
        ensures { result ≡ has self.0 n }
    {
        n < 32 && self.0 & (1 << n) != 0
    }

    // Adds the lowest number that is no member.
    pub fn set_any(self) -> Taken
        ensures { result ≡ set_any_of self }
    {
        let next = (!self.0).trailing_zeros();
        if next < 32 {
            let n = next as u8;
            Taken {
                set: self.set(n),
                number: Some(n),
            }
        } else {
            Taken {
                set: self,
                number: None,
            }
        }
    }
}
