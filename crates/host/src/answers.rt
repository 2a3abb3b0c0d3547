// What a coming, a look and a start answer, and the documents' number for each refusal.
ghost use Rattle.std.specs.Prelude.{◌≡◌};
ghost use Rattle.host.specs.declared.answers.SubmitRefusal.TheVariants.{Begin};
ghost use Rattle.host.specs.Refusal.{number_of};

use transfers::refusal::Refusal;

// 32, 33, 34, then as begin.
#[derive(Clone, Copy)]
pub enum SubmitRefusal {
    Caller,
    Pending,
    Quota,
    Begin(Refusal),
}

impl From<Refusal> for SubmitRefusal {
    ghost from_gives = { λ why e. e ≡ Begin why };

    fn from(why: Refusal) -> SubmitRefusal {
        SubmitRefusal::Begin(why)
    }
}

impl From<SubmitRefusal> for u8 {
    ghost from_gives = { λ why n. n ≡ number_of why };

    fn from(why: SubmitRefusal) -> u8 {
        match why {
            SubmitRefusal::Caller => 32,
            SubmitRefusal::Pending => 33,
            SubmitRefusal::Quota => 34,
            SubmitRefusal::Begin(e) => u8::from(e),
        }
    }
}
