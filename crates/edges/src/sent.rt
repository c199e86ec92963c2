// A bundle of entries: all of them and a yield, or nothing; and 14 for none and for 65.
use crate::calls::{fresh, query};
use crate::say;
use bundles::entry::Entry;
use lending::lent::bundle_entries;
use std::io;

pub fn bundle(
    rt: &impl Print,
    t: &mut [u8],
    board: &mut [u8],
    client: u8,
    kind: u8,
    count: usize,
) -> io::Result<()> {
    let entries = [Entry {
        kind,
        bib: 7,
        v: 61000,
    }; 64];
    say::answer(
        rt,
        "bundle",
        bundle_entries(t, board, client, 0, entries, count),
    )
}

pub fn all(rt: &impl Print, t: &mut [u8], board: &mut [u8]) -> io::Result<()> {
    say::title(rt, "bundles of entries: 64; 64 of kind 5; none; 65")?;
    fresh(rt, t, board)?;
    bundle(rt, t, board, 0, 1, 64)?;
    query(rt, t, 1, 0, 7)?;
    bundle(rt, t, board, 1, 5, 64)
}

// Of a wrong count.
pub fn wrong(rt: &impl Print, t: &mut [u8], board: &mut [u8]) -> io::Result<()> {
    bundle(rt, t, board, 1, 1, 0)?;
    bundle(rt, t, board, 1, 1, 65)
}
