ghost use Rattle.std.specs.Prelude.{◌≡◌};
ghost use Rattle.pool.specs.Pipe.{pipe_of, index_of};

use crate::async_pool::PoolIndex;

// The number of an interrupt pipe, counted from 1.
#[derive(Clone, Copy)]
pub struct PipeNumber(pub u8);

const PIPES: u8 = 15;

const OFFSET: u8 = 1;

impl PoolIndex {
    // Index 0 to 14 is pipe 1 to 15.
    #[tactic(auto, unfolding(crate::specs::Pipe::pipe_of))]
    pub fn pipe(self) -> Option<PipeNumber>
        ensures { result ≡ pipe_of self }
    {
        if self.0 < PIPES {
            Some(PipeNumber(self.0 + OFFSET))
        } else {
            None
        }
    }
}

impl PipeNumber {
    #[tactic(auto, unfolding(crate::specs::Pipe::index_of))]
    pub fn index(self) -> Option<PoolIndex>
        ensures { result ≡ index_of self }
    {
        let i = self.0.checked_sub(OFFSET)?;
        (i < PIPES).then_some(PoolIndex(i))
    }
}
