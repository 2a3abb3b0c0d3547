// Why a file is refused.
ghost use Rattle.std.specs.Prelude.{◌≡◌};
ghost use Rattle.poll.specs.Reply.{number_of};

#[derive(Clone, Copy)]
pub enum Refusal {
    Format,
    Bounds,
}

impl From<Refusal> for u8 {
    ghost from_gives = { λ refusal number. number ≡ number_of refusal };

    fn from(refusal: Refusal) -> u8 {
        match refusal {
            Refusal::Format => 28,
            Refusal::Bounds => 29,
        }
    }
}
