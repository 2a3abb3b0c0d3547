// The counters of `InDepacketiser`, by value.
ghost use Rattle.std.specs.Prelude.{◌≡◌};
ghost use Rattle.cutting.specs.Retire.{kept_of, in_retire};

// `next_retire` (always equal to `packet_parity`), `remain` and `offset` of the Rust.
#[derive(Clone, Copy)]
pub struct InDepacketiser {
    pub parity: bool,
    pub remain: u16,
    pub offset: u16,
}

// How many bytes of a packet are kept, and the counters after it.
#[derive(Clone, Copy)]
pub struct InRetired {
    pub count: u16,
    pub rest: InDepacketiser,
}

impl InDepacketiser {
    // A packet of `length` bytes is retired: as many of them are kept as there is room for.
    // Counters that no start makes, with offset and rest above 65,535, keep none.
    #[tactic(auto, unfolding(crate::specs::Retire::in_retire))]
    pub fn retire(self, length: u16) -> InRetired
        ensures { result ≡ in_retire self length }
    {
        let n = kept(self.offset, self.remain, length);
        InRetired {
            count: n,
            rest: InDepacketiser {
                parity: !self.parity,
                remain: self.remain - n,
                offset: self.offset + n,
            },
        }
    }
}

fn kept(offset: u16, remain: u16, length: u16) -> u16
    ensures { result ≡ kept_of offset remain length }
{
    if 0xFFFF - offset < remain {
        0
    } else {
        length.min(remain)
    }
}
