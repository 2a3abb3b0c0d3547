// The poll table: for each interval that a pipe is opened with, how often it is polled. A house may load its own.
ghost use Rattle.std.specs.Prelude.{◌≡◌, false, true, drop, MatchOption};
ghost use Rattle.poll.specs.Table.{built_in_of};
ghost use Rattle.poll.specs.File.{is_version1, entry_good, all_good, table_in};
ghost use Rattle.poll.specs.Loaded.{Took};

use crate::refusal::Refusal;

const BUILT_IN: [u8; 256] = [
    0, 1, 2, 3, 4, 5, 6, 7, 8, 9, 9, 9, 9, 9, 9, 9, 9, 9, 9, 9, 9, 9, 9, 9, 9, 9, 9, 9, 9, 9, 9, 9,
    9, 9, 9, 9, 9, 9, 9, 9, 9, 9, 9, 9, 9, 9, 9, 9, 9, 9, 9, 9, 9, 9, 9, 9, 9, 9, 9, 9, 9, 9, 9, 9,
    9, 9, 9, 9, 9, 9, 9, 9, 9, 9, 9, 9, 9, 9, 9, 9, 9, 9, 9, 9, 9, 9, 9, 9, 9, 9, 9, 9, 9, 9, 9, 9,
    9, 9, 9, 9, 9, 9, 9, 9, 9, 9, 9, 9, 9, 9, 9, 9, 9, 9, 9, 9, 9, 9, 9, 9, 9, 9, 9, 9, 9, 9, 9, 9,
    9, 9, 9, 9, 9, 9, 9, 9, 9, 9, 9, 9, 9, 9, 9, 9, 9, 9, 9, 9, 9, 9, 9, 9, 9, 9, 9, 9, 9, 9, 9, 9,
    9, 9, 9, 9, 9, 9, 9, 9, 9, 9, 9, 9, 9, 9, 9, 9, 9, 9, 9, 9, 9, 9, 9, 9, 9, 9, 9, 9, 9, 9, 9, 9,
    9, 9, 9, 9, 9, 9, 9, 9, 9, 9, 9, 9, 9, 9, 9, 9, 9, 9, 9, 9, 9, 9, 9, 9, 9, 9, 9, 9, 9, 9, 9, 9,
    9, 9, 9, 9, 9, 9, 9, 9, 9, 9, 9, 9, 9, 9, 9, 9, 9, 9, 9, 9, 9, 9, 9, 9, 9, 9, 9, 9, 9, 9, 9, 9,
];

const VERSION: u16 = 1;

// The table that a desk has until its house loads another.
#[tactic(auto, unfolding(crate::specs::Table::capped))]
pub fn built_in() -> [u8; 256]
    ensures { result ≡ built_in_of }
{
    BUILT_IN
}

// The entries of a file of version 1.
#[tactic(auto, unfolding(crate::specs::File::headed))]
fn entries_of(file: &[u8]) -> Option<&[u8; 256]>
    ensures { MatchOption result (is_version1 file.now ≡ false) (λ t. (is_version1 file.now ≡ true) × (t.now ≡ drop 5 file.now)) }
{
    let [b'P', b'I', b'T', low, high, entries @ ..] = file else {
        return None;
    };
    if u16::from_le_bytes([*low, *high]) != VERSION {
        return None;
    }
    <&[u8; 256]>::try_from(entries).ok()
}

fn entry_good(i: usize, entry: u8) -> bool
    ensures { result ≡ entry_good i entry }
{
    if i == 0 {
        entry == 0
    } else {
        1 <= entry && entry as usize <= i
    }
}

#[tactic(auto, using(crate::proofs::Tables::next_good, crate::proofs::Tables::over_good))]
fn all_good(table: &[u8; 256]) -> bool
    ensures { result ≡ all_good 0 table.now }
{
    for (i, entry) in table.iter().enumerate() {
        if !entry_good(i, *entry) {
            return false;
        }
    }
    true
}

// Takes a file's table in the place of the table lent; a refused file leaves that.
#[tactic(auto, unfolding(crate::specs::File::table_in, crate::specs::File::bounded_table))]
pub fn load(table: &mut [u8; 256], file: &[u8]) -> Result<(), Refusal>
    ensures { Took table.old (table_in file.now) result table.new }
{
    let entries = entries_of(file).ok_or(Refusal::Format)?;
    if !all_good(entries) {
        return Err(Refusal::Bounds);
    }
    *table = *entries;
    Ok(())
}
