ghost use Rattle.std.specs.Prelude.{◌≡◌};
ghost use Rattle.pool.specs.Pool.{new_pool, alloc_of, free_of};

use crate::bitset::BitSet;

// Which of a pool's things, counted from 0.
#[derive(Clone, Copy)]
pub struct PoolIndex(pub u8);

#[derive(Clone, Copy)]
pub struct Pool {
    pub total: u8,
    pub allocated: BitSet,
}

#[derive(Clone, Copy)]
pub struct Allocated {
    pub pool: Pool,
    pub index: Option<PoolIndex>,
}

// The pool after free, and whether the index was allocated: the pool comes back either way, so `was` is no Option.
#[derive(Clone, Copy)]
pub struct Freed {
    pub pool: Pool,
    pub was: bool,
}

impl Pool {
    // Where the Rust asserts total <= 32, a larger total is taken as 32.
    #[tactic(auto, unfolding(crate::specs::Pool::new_pool))]
    pub fn new(total: u8) -> Pool
        ensures { result ≡ new_pool total }
    {
        Pool {
            total: total.min(32),
            allocated: BitSet::new(),
        }
    }

    // The lowest index that is not allocated, if it is below the total.
    #[tactic(auto, unfolding(crate::specs::Pool::alloc_of, crate::specs::Set::set_any_of))]
    pub fn alloc(self) -> Allocated
        ensures { result ≡ alloc_of self }
    {
        let taken = self.allocated.set_any();
        match taken.number {
            Some(n) if n < self.total => Allocated {
                pool: Pool {
                    allocated: taken.set,
                    ..self
                },
                index: Some(PoolIndex(n)),
            },
            _ => Allocated {
                pool: self,
                index: None,
            },
        }
    }

    // The index is allocated no more. The Rust frees by dropping a `Pooled`.
    #[tactic(auto, unfolding(crate::specs::Pool::free_of))]
    pub fn free(self, index: PoolIndex) -> Freed
        ensures { result ≡ free_of self index }
    {
        Freed {
            pool: Pool {
                allocated: self.allocated.clear(index.0),
                ..self
            },
            was: self.allocated.contains(index.0),
        }
    }
}
