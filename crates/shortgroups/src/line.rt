// A line of the input.
ghost use Rattle.std.specs.Prelude.{◌≡◌};
ghost use Rattle.shortgroups.specs.Lines.{limit_of, lent_of, asked_of, line_of};

use input::Unreadable;
use script::line::is_skipped;
use script::typed::{byte_at, fields};

// The list for a limit, in as many lent bytes.
#[derive(Clone, Copy)]
pub struct Listing {
    pub limit: u8,
    pub room: u8,
}

// `N`.
#[tactic(auto, unfolding(crate::specs::Lines::limit_of))]
fn read_limit(line: &[u8]) -> Option<Listing>
    ensures { result ≡ limit_of line.now }
{
    let limit = byte_at(line, 0)?;
    Some(Listing { limit, room: 255 })
}

// `N ROOM`.
#[tactic(auto, unfolding(crate::specs::Lines::lent_of))]
fn read_lent(line: &[u8]) -> Option<Listing>
    ensures { result ≡ lent_of line.now }
{
    let limit = byte_at(line, 0)?;
    let room = byte_at(line, 1)?;
    Some(Listing { limit, room })
}

#[tactic(auto, unfolding(crate::specs::Lines::asked_of))]
fn read_listing(line: &[u8]) -> Option<Listing>
    ensures { result ≡ asked_of line.now }
{
    match fields(line) {
        1 => read_limit(line),
        2 => read_lent(line),
        _ => None,
    }
}

// What a line without its LF asks for, nothing if it is skipped.
#[tactic(auto, unfolding(crate::specs::Lines::line_of))]
pub fn parse(line: &[u8]) -> Result<Option<Listing>, Unreadable>
    ensures { result ≡ line_of line.now }
{
    if is_skipped(line) {
        return Ok(None);
    }
    let listing = read_listing(line).ok_or(Unreadable)?;
    Ok(Some(listing))
}
