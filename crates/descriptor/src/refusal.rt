// Why the walk refuses, and the number for it.
ghost use Rattle.std.specs.Prelude.{◌≡◌};
ghost use Rattle.descriptor.specs.Reply.{number_of};

#[derive(Clone, Copy)]
pub enum Refusal {
    Length,
    TotalLength,
    Configuration,
}

impl From<Refusal> for u8 {
    ghost from_gives = { λ refusal number. number ≡ number_of refusal };

    fn from(refusal: Refusal) -> u8 {
        match refusal {
            Refusal::Length => 22,
            Refusal::TotalLength => 23,
            Refusal::Configuration => 24,
        }
    }
}
