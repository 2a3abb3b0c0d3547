// A record's items, at a cursor or one after another.
ghost use Rattle.std.specs.Prelude.{◌≡◌, ℕ, ◌-◌, ◌≤◌, length, Some};
ghost use Rattle.std.specs.Iterator.{at_most};
ghost use Rattle.record.specs.Items.{first_at, next_of, group_of, group_at_of, sent_at, failed_at, item_at};

use crate::look::{Look, look_at};

// The position of an item, or the end.
#[derive(Clone, Copy)]
pub struct Cursor {
    pub at: usize,
}

// A control: address, position of its 8 SETUP bytes, count of its OUT bytes.
#[derive(Clone, Copy)]
pub struct ControlItem {
    pub address: u8,
    pub setup: usize,
    pub count: usize,
    pub next: Cursor,
}

// A bulk group: address, endpoint, first PID, count of its bytes.
#[derive(Clone, Copy)]
pub struct BulkItem {
    pub address: u8,
    pub endpoint: u8,
    pub pid: bool,
    pub count: usize,
    pub next: Cursor,
}

// What stands at a cursor: an item, or the cursor after one that failed.
#[derive(Clone, Copy)]
pub enum ItemAnswer {
    Control(ControlItem),
    Bulk(BulkItem),
    Failed(Cursor),
}

// The position after packets, and the count of their bytes.
#[derive(Clone, Copy)]
pub struct Span {
    pub at: usize,
    pub count: usize,
}

// The packets from a position on, up to a marked one. An entry's length tells the next position.
#[tactic(auto, using(crate::proofs::Spans::walk_start))]
fn group_at(s: &[u8], at: usize) -> Span
    requires { at ≤ length s.now }
    ensures { result ≡ group_at_of s.now at }
{
    let mut p = Span { at, count: 0 };
    while let Ok(Some(Look::Out(x))) = look_at(s, p.at) {
        let n = x.length as usize;
        p = Span {
            at: p.at + (6 + n),
            count: p.count + n,
        };
        if x.last {
            break;
        }
    }
    p
}

// What follows a SETUP on endpoint 0.
#[tactic(auto, unfolding(crate::specs::Items::sent_at))]
fn sent_at(s: &[u8], at: usize) -> Span
    requires { at ≤ length s.now }
    ensures { result ≡ sent_at s.now at }
{
    match look_at(s, at) {
        Ok(Some(Look::Out(x))) if x.endpoint == 0 => group_at(s, at),
        _ => Span { at, count: 0 },
    }
}

// A count above 0 stands here: the item before it failed.
#[tactic(auto, unfolding(crate::specs::Items::failed_at))]
fn failed_at(s: &[u8], at: usize) -> bool
    ensures { result ≡ failed_at s.now at }
{
    matches!(look_at(s, at), Ok(Some(Look::Failed(m))) if m != 0)
}

// The first item's cursor.
pub fn first() -> Cursor
    ensures { result.at ≡ first_at }
{
    Cursor { at: 5 }
}

// The item at a cursor, with the next cursor; of one that failed only the next cursor. `Accepted` names both.
#[tactic(auto, using(crate::proofs::Looking::setup_at, crate::proofs::Looking::out_at, crate::proofs::Looking::failed_at, crate::proofs::Spans::failed_room), unfolding(crate::specs::Items::item_at))]
pub fn item(s: &[u8], cursor: Cursor) -> Option<ItemAnswer>
    ensures { result ≡ item_at s.now cursor.at }
{
    let at = cursor.at;
    let (found, after) = match look_at(s, at) {
        Ok(Some(Look::Setup(address, _))) => {
            let sent = sent_at(s, at + 10);
            let next = Cursor { at: sent.at };
            let control = ControlItem {
                address,
                setup: at + 2,
                count: sent.count,
                next,
            };
            (ItemAnswer::Control(control), sent.at)
        }
        Ok(Some(Look::Out(x))) => {
            let sent = group_at(s, at);
            let bulk = BulkItem {
                address: x.address,
                endpoint: x.endpoint,
                pid: x.pid,
                count: sent.count,
                next: Cursor { at: sent.at },
            };
            (ItemAnswer::Bulk(bulk), sent.at)
        }
        Ok(Some(Look::Failed(_))) => return Some(ItemAnswer::Failed(Cursor { at: at + 5 })),
        _ => return None,
    };
    if failed_at(s, after) {
        return Some(ItemAnswer::Failed(Cursor { at: after + 5 }));
    }
    Some(found)
}

impl ItemAnswer {
    // The cursor after it.
    fn after(self) -> Cursor
        ensures { (at : ℕ) → result.at ≡ next_of (Some self) at }
    {
        match self {
            ItemAnswer::Control(c) => c.next,
            ItemAnswer::Bulk(b) => b.next,
            ItemAnswer::Failed(next) => next,
        }
    }
}

// A record's items one after another, up to the end.
#[derive(Drop)]
pub struct Items<'a> {
    bytes: &'a [u8],
    cursor: Cursor,
}

impl<'a> Items<'a> {
    pub fn new(bytes: &'a [u8]) -> Items<'a>
        ensures { (result.bytes.now ≡ bytes.now) × (result.cursor.at ≡ first_at) }
    {
        Items {
            bytes,
            cursor: first(),
        }
    }
}

impl<'a> Iterator for Items<'a> {
    type Item = ItemAnswer;

    ghost next_gives = { λ i found j. (found ≡ item_at i.bytes.now i.cursor.at) × (j.cursor.at ≡ next_of found i.cursor.at) × (j.bytes.now ≡ i.bytes.now) };

    ghost remaining = { λ i. at_most (length i.bytes.now - i.cursor.at) };

    #[tactic(auto, using(crate::proofs::Spans::item_further))]
    fn next(&mut self) -> Option<ItemAnswer> {
        let found = item(self.bytes, self.cursor)?;
        self.cursor = found.after();
        Some(found)
    }
}
