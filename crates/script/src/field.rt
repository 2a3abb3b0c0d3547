// A text's parts between separators, as a line's fields between spaces.
ghost use Rattle.std.specs.Prelude.{◌≡◌, ◌+◌, ◌≤◌, length, take, drop};
ghost use Rattle.script.specs.Parts.{up_to, past, part_of, parts_of, same_text};

// Where the first separator stands, or the text's length, and no Option: its clause says where callers cut, with a separator or without.
pub fn end_of(text: &[u8], sep: u8) -> usize
    ensures { (result ≤ length text.now) × (take result text.now ≡ up_to sep text.now)
        × (drop (result + 1) text.now ≡ past sep text.now) }
{
    text.iter().position(|b| *b == sep).unwrap_or(text.len())
}

// What stands after the first separator.
pub(crate) fn rest(text: &[u8], sep: u8) -> &[u8]
    ensures { result.now ≡ past sep text.now }
{
    text.get(end_of(text, sep) + 1..).unwrap_or_default()
}

// Part number `k`; past the last one it is empty.
pub(crate) fn part(text: &[u8], sep: u8, k: usize) -> &[u8]
    ensures { result.now ≡ part_of sep text.now k }
{
    text.split(|b| *b == sep).nth(k).unwrap_or_default()
}

// How many parts there are.
#[tactic(auto, using(crate::proofs::Walks::counted_parts))]
pub(crate) fn parts(text: &[u8], sep: u8) -> usize
    ensures { result ≡ parts_of sep text.now }
{
    1 + text.iter().map(|b| usize::from(*b == sep)).sum::<usize>()
}

// Whether two texts are the same.
#[tactic(auto, using(crate::proofs::Walks::same_pointwise))]
pub fn same(a: &[u8], b: &[u8]) -> bool
    ensures { result ≡ same_text a.now b.now }
{
    a == b
}
