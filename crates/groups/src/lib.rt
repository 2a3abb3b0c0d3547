// Every short group, in order: each as its packet count and then its packets' lengths.
#![tactic(auto)]

ghost use Rattle.std.specs.Prelude.{◌≡◌, ◌≤◌, length};
ghost use Rattle.groups.specs.Listing.{list_bytes, Listed};
ghost use Rattle.groups.specs.Refusal.{number_of};

// Why nothing is listed.
#[derive(Clone, Copy)]
pub enum Refusal {
    Limit,
    Room,
}

// "a limit n of 0 to 6 bytes"
const MAX_LIMIT: u8 = 6;

// The groups of at most 6 bytes. They are ordered by their bytes, so those of at most n bytes come first.
const LIST: [u8; 132] = [
    1, 0, 1, 1, 2, 1, 0, 1, 2, 2, 1, 1, 2, 2, 0, 3, 1, 1, 0, 1, 3, 2, 2, 1, 2, 3, 0, 3, 1, 1, 1, 4,
    1, 1, 1, 0, 1, 4, 2, 2, 2, 2, 3, 1, 2, 4, 0, 3, 2, 2, 0, 4, 1, 1, 1, 1, 5, 1, 1, 1, 1, 0, 1, 5,
    2, 3, 2, 2, 4, 1, 2, 5, 0, 3, 2, 2, 1, 5, 1, 1, 1, 1, 1, 6, 1, 1, 1, 1, 1, 0, 1, 6, 2, 3, 3, 2,
    4, 2, 2, 5, 1, 2, 6, 0, 3, 2, 2, 2, 3, 3, 3, 0, 4, 2, 2, 2, 0, 6, 1, 1, 1, 1, 1, 1, 7, 1, 1, 1,
    1, 1, 1, 0,
];

// How many bytes of the list the groups of at most n bytes take.
const ENDS: [u8; 7] = [2, 7, 19, 36, 62, 90, 132];

impl From<Refusal> for u8 {
    ghost from_gives = { λ why n. n ≡ number_of why };

    fn from(why: Refusal) -> u8 {
        match why {
            Refusal::Limit => 35,
            Refusal::Room => 21,
        }
    }
}

fn end_of(n: u8) -> usize
    requires { n ≤ 6 }
    ensures { (result ≡ length (list_bytes n)) × (result ≤ 132) }
{
    ENDS[n as usize] as usize
}

// Lists the groups of at most n bytes, from the first lent byte on.
#[tactic(auto, using(crate::proofs::Above::above_limit))]
pub fn short_groups(n: u8, out: &mut [u8]) -> Result<usize, Refusal>
    ensures { Listed n out.old result out.new }
{
    if MAX_LIMIT < n {
        return Err(Refusal::Limit);
    }
    let k = end_of(n);
    if out.len() < k {
        return Err(Refusal::Room);
    }
    out[..k].copy_from_slice(&LIST[..k]);
    Ok(k)
}
