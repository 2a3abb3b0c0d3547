// Why the record's writer or reader refuses, and document 01's number for it.
ghost use Rattle.std.specs.Prelude.{◌≡◌};
ghost use Rattle.record.specs.Refusal.{number_of};

#[derive(Clone, Copy)]
pub enum Refusal {
    LentMemory,
    Mark,
    Field,
    Grammar,
    Room,
}

impl From<Refusal> for u8 {
    ghost from_gives = { λ why n. n ≡ number_of why };

    fn from(why: Refusal) -> u8 {
        match why {
            Refusal::LentMemory => 15,
            Refusal::Mark => 18,
            Refusal::Field => 19,
            Refusal::Grammar => 20,
            Refusal::Room => 21,
        }
    }
}
