// The bytes that a call changed, as maximal runs.
use crate::output::{Output, put_number};

// So many bytes are compared at once.
const BLOCK: usize = 64;

fn print_run(out: &mut Output, name: &str, from: usize, bytes: &[u8]) {
    out.put(name.as_bytes());
    put_number(out, from as u64);
    out.put(b" ");
    out.put_pairs(bytes);
    out.put(b"\n");
}

// Goes over the bytes of a block, the first of which is byte `at`. Answers where the run began that goes on after it, if one does.
fn walk(
    out: &mut Output,
    name: &str,
    new: &[u8],
    at: usize,
    block: (&[u8], &[u8]),
    mut began: Option<usize>,
) -> Option<usize> {
    for ((was, is), i) in block.0.iter().zip(block.1).zip(at..) {
        match began {
            None if was != is => began = Some(i),
            Some(from) if was == is => {
                print_run(out, name, from, new.get(from..i).unwrap_or_default());
                began = None;
            }
            _ => {}
        }
    }
    began
}

pub(crate) fn print_runs(out: &mut Output, name: &str, old: &[u8], new: &[u8]) {
    let mut began = None;
    for ((was, is), k) in old.chunks(BLOCK).zip(new.chunks(BLOCK)).zip(0..) {
        // Most calls change little or nothing.
        if began.is_some() || was != is {
            began = walk(out, name, new, BLOCK.saturating_mul(k), (was, is), began);
        }
    }
    if let Some(from) = began {
        let end = old.len().min(new.len());
        print_run(out, name, from, new.get(from..end).unwrap_or_default());
    }
}
