// How many entries of the wire record a transfer has armed.
ghost use Rattle.std.specs.Prelude.{◌≡◌};
ghost use Rattle.transfers.specs.Entries.{armed_count, tally, ends, entries_begun, entries_stepped, entries_cancelled, failed_step, failed_cancel};

use crate::answers::{Armed, Step};
use crate::refusal::Refusal;

fn armed_count(armed: Armed) -> u32
    ensures { result ≡ armed_count armed }
{
    u32::from(armed.setup.is_some())
        + u32::from(armed.first.is_some())
        + u32::from(armed.second.is_some())
}

fn more(entries: u32, armed: Armed) -> u32
    ensures { result ≡ tally entries armed }
{
    std::num::wrapping_add_u32(entries, armed_count(armed))
}

// 1 to 7 and 9 end the transfer; a step's 15 and 16 leave all as it was. By the numbers, as the definition `ends` says it in the document's.
fn ends_transfer(why: Refusal) -> bool
    ensures { result ≡ ends why }
{
    let n = u8::from(why);
    n <= 7 || n == 9
}

pub(crate) fn entries_begun(answer: Result<(), Refusal>, entries: u32, armed: Armed) -> u32
    ensures { result ≡ entries_begun answer entries armed }
{
    match answer {
        Ok(()) => armed_count(armed),
        Err(_) => entries,
    }
}

pub(crate) fn entries_stepped(answer: Result<Step, Refusal>, entries: u32, armed: Armed) -> u32
    ensures { result ≡ entries_stepped answer entries armed }
{
    match answer {
        Ok(Step::Waiting(_)) => more(entries, armed),
        Ok(Step::Done(_)) => 0,
        Err(why) if ends_transfer(why) => 0,
        Err(_) => entries,
    }
}

pub(crate) fn entries_cancelled(answer: Result<(), Refusal>, entries: u32) -> u32
    ensures { result ≡ entries_cancelled answer entries }
{
    match answer {
        Ok(()) => 0,
        Err(_) => entries,
    }
}

pub(crate) fn failed_step(answer: Result<Step, Refusal>, entries: u32) -> Option<u32>
    ensures { result ≡ failed_step answer entries }
{
    match answer {
        Err(why) if ends_transfer(why) => Some(entries),
        _ => None,
    }
}

pub(crate) fn failed_cancel(answer: Result<(), Refusal>, entries: u32) -> Option<u32>
    ensures { result ≡ failed_cancel answer entries }
{
    match answer {
        Ok(()) => Some(entries),
        Err(_) => None,
    }
}
