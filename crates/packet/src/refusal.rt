// Why writing or reading refuses, and document 02's number for it.
ghost use Rattle.std.specs.Prelude.{◌≡◌};
ghost use Rattle.packet.specs.Refusal.{number_of};

#[derive(Clone, Copy)]
pub enum Refusal {
    Field,
    Room,
    Pid,
    Length,
    Crc,
}

impl From<Refusal> for u8 {
    ghost from_gives = { λ refusal number. number ≡ number_of refusal };

    fn from(refusal: Refusal) -> u8 {
        match refusal {
            Refusal::Field => 19,
            Refusal::Room => 21,
            Refusal::Pid => 25,
            Refusal::Length => 26,
            Refusal::Crc => 27,
        }
    }
}
