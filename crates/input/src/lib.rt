// What the programs read: standard input into a room of a fixed size.
#![tactic(auto)]

ghost use Rattle.std.specs.Prelude.{◌≡◌, ◌<◌, ◌≤◌, ltb, length, take, IfOk};
ghost use Rattle.std.specs.Io.KnownBytes.{Consumes, IsAtEnd};

use std::io;
use std::io::Read;

// The number that is answered to an input that is too long; what prints it takes the documents' numbers.
pub const TOO_LONG: u8 = 21;

// A line of the input that can't be read.
#[derive(Clone, Copy)]
pub struct Unreadable;

// "at most 65,536 bytes .. 21 if the input is longer"
pub fn is_too_long(bytes: &[u8]) -> bool
    ensures { result ≡ ltb 65536 (length bytes.now) }
{
    65536 < bytes.len()
}

// Reads until the room is full or the input ends. The input is the first n bytes, n the answer.
// A read may give fewer bytes than there is room for, and `read_exact` refuses an input that is shorter: so a loop.
pub fn read_full<R: Read>(input: &mut R, room: &mut [u8]) -> io::Result<usize>
    ensures bound { IfOk result (λ n. n ≤ length room.new) }
    ensures bytes { IfOk result (λ n. Consumes (R.remaining input.old) (R.remaining input.new) (take n room.new)) }
    ensures end { IfOk result (λ n. n < length room.new → IsAtEnd (R.remaining input.new)) }
{
    let mut done = 0;
    while done < room.len() {
        let n = input.read(&mut room[done..])?;
        if n == 0 {
            break;
        }
        done += n;
    }
    Ok(done)
}

// The input is the first n bytes, n the answer, and no slice: `room` and `bytes` speak of the room after the call.
// The room is one byte longer than "65,536 bytes", so that a longer input is seen.
pub fn read_input<R: Read>(input: &mut R, room: &mut [u8; 65537]) -> io::Result<usize>
    ensures room { length room.new ≡ 65537 }
    ensures bound { IfOk result (λ n. n ≤ 65537) }
    ensures bytes { IfOk result (λ n. Consumes (R.remaining input.old) (R.remaining input.new) (take n room.new)) }
    ensures end { IfOk result (λ n. n < 65537 → IsAtEnd (R.remaining input.new)) }
{
    read_full(input, room)
}

// The first n bytes, all where there are no more.
pub fn first(bytes: &[u8], n: usize) -> &[u8]
    ensures { result.now ≡ take n bytes.now }
{
    bytes.get(..n).unwrap_or(bytes)
}
