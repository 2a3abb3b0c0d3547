// The lines of begins. Each answers nothing where the line can't be read.
ghost use Rattle.std.specs.Prelude.{◌≡◌, unwrap_or};
ghost use Rattle.script.specs.Lines.{unread, control_of, bulk_of, control_length_of, bulk_length_of, control_in_of, control_out_of, control_none_of, bulk_in_of, bulk_out_of};

use crate::bytes::LONGEST;
use crate::command::{Bulk, Command, Control};
use crate::typed::{bit_at, byte_at, bytes_at, fields, half_at, length_at, setup_at, type_at};

// The fields that every control has, on a line of n fields.
#[tactic(auto, unfolding(crate::specs::Lines::control_of))]
pub fn read_control(line: &[u8], n: usize) -> Option<Control>
    ensures { result ≡ control_of line.now n }
{
    if fields(line) != n {
        return None;
    }
    let address = byte_at(line, 1)?;
    let preamble = bit_at(line, 2)?;
    let size = byte_at(line, 3)?;
    let setup = setup_at(line, 4)?;
    Some(Control {
        address,
        preamble,
        size,
        setup,
        count: 0,
    })
}

// The fields that every bulk has.
#[tactic(auto, unfolding(crate::specs::Lines::bulk_of))]
fn read_bulk(line: &[u8]) -> Option<Bulk>
    ensures { result ≡ bulk_of line.now }
{
    if fields(line) != 7 {
        return None;
    }
    let address = byte_at(line, 1)?;
    let endpoint = byte_at(line, 2)?;
    let size = half_at(line, 3)?;
    let variable = type_at(line, 4)?;
    let toggle = bit_at(line, 5)?;
    Some(Bulk {
        address,
        endpoint,
        size,
        variable,
        toggle,
        count: 0,
    })
}

// The fields that every control has, and LEN. What follows of controls and of bulks stays apart: the fields differ in more than a type.
#[tactic(auto, unfolding(crate::specs::Lines::control_length_of))]
pub fn read_control_length(line: &[u8]) -> Option<Control>
    ensures { result ≡ control_length_of line.now }
{
    let control = read_control(line, 6)?;
    let count = length_at(line, 5, LONGEST)?;
    Some(Control { count, ..control })
}

// The fields that every bulk has, and LEN.
#[tactic(auto, unfolding(crate::specs::Lines::bulk_length_of))]
pub fn read_bulk_length(line: &[u8]) -> Option<Bulk>
    ensures { result ≡ bulk_length_of line.now }
{
    let bulk = read_bulk(line)?;
    let count = length_at(line, 6, LONGEST)?;
    Some(Bulk { count, ..bulk })
}

// `control-in ADDRESS PREAMBLE SIZE SETUP LEN`.
pub(crate) fn read_control_in(line: &[u8]) -> Option<Command>
    ensures { unwrap_or result unread ≡ control_in_of line.now }
{
    Some(Command::ControlIn(read_control_length(line)?))
}

// `control-out ADDRESS PREAMBLE SIZE SETUP BYTES`.
#[tactic(auto, unfolding(crate::specs::Lines::control_out_of))]
pub(crate) fn read_control_out(line: &[u8], out: &mut [u8; 131072]) -> Option<Command>
    ensures { (unwrap_or result unread ≡ (control_out_of line.now out.old).command) × (out.new ≡ (control_out_of line.now out.old).stored) }
{
    let control = read_control(line, 6)?;
    let count = bytes_at(line, 5, out)?;
    Some(Command::ControlOut(Control { count, ..control }))
}

// `control-none ADDRESS PREAMBLE SIZE SETUP`.
#[tactic(auto, unfolding(crate::specs::Lines::control_none_of))]
pub(crate) fn read_control_none(line: &[u8]) -> Option<Command>
    ensures { unwrap_or result unread ≡ control_none_of line.now }
{
    Some(Command::ControlNone(read_control(line, 5)?))
}

// `bulk-in ADDRESS ENDPOINT SIZE TYPE TOGGLE LEN`.
pub(crate) fn read_bulk_in(line: &[u8]) -> Option<Command>
    ensures { unwrap_or result unread ≡ bulk_in_of line.now }
{
    Some(Command::BulkIn(read_bulk_length(line)?))
}

// `bulk-out ADDRESS ENDPOINT SIZE TYPE TOGGLE BYTES`.
#[tactic(auto, unfolding(crate::specs::Lines::bulk_out_of))]
pub(crate) fn read_bulk_out(line: &[u8], out: &mut [u8; 131072]) -> Option<Command>
    ensures { (unwrap_or result unread ≡ (bulk_out_of line.now out.old).command) × (out.new ≡ (bulk_out_of line.now out.old).stored) }
{
    let bulk = read_bulk(line)?;
    let count = bytes_at(line, 6, out)?;
    Some(Command::BulkOut(Bulk { count, ..bulk }))
}
