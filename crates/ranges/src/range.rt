// Code 1: every cell in its range. Fixed numbers, and no scan of rows, links or flags.
// No loop returns early, so that the compiler can take many cells at a time.
ghost use Rattle.std.specs.Prelude.{◌≡◌, ◌+◌, ◌*◌, ◌≤◌, length};
ghost use borrow.Rule.Slice.PartMut.{mid_of};
ghost use Rattle.cells.specs.Sizes.{lower_bytes};
ghost use Rattle.cells.specs.Parts.{counters_part, queue_part, signature_part, split};
ghost use Rattle.cells.specs.Range.{bytes_below, counters_in, in_range, places_in, queue_in, records_in, signed, singles_in, words_below};
ghost use Rattle.ranges.specs.Answers.{range_check};

use fields::read;
use places::parts::{
    BASE, COUNT, FIRST, LAST, LAYOUT, OPENED, QUEUE, SETTLED, SIGNATURE, SINGLE, STATE, USED,
};
use sizes::table::Table;

#[derive(Drop)]
pub enum RangeCheck {
    Sound,
    Damaged,
}

// n bytes from `at` on, each below a limit. The comparison is of bytes, so that many are compared at a time.
fn bytes_below(d: &[u8], at: usize, n: usize, limit: u8) -> bool
    requires { at + n ≤ length d.now }
    ensures { result ≡ bytes_below n limit (mid_of at n d.now) }
{
    let mut ok = true;
    for b in &d[at..at + n] {
        ok &= *b < limit;
    }
    ok
}

// n words from `at` on, each below a limit.
fn words_below(d: &[u8], at: usize, n: usize, limit: u16) -> bool
    requires { at + 2 * n ≤ length d.now }
    ensures { result ≡ words_below n limit (mid_of at (2 * n) d.now) }
{
    let mut ok = true;
    for i in 0..n {
        ok &= u16::from_le_bytes([d[at + 2 * i], d[at + (2 * i + 1)]]) < limit;
    }
    ok
}

// The signature at the end of the bytes.
fn is_signed(d: &[u8]) -> bool
    requires { length d.now ≡ lower_bytes }
    ensures { result ≡ signed (split d.now signature_part) }
{
    let s = Table::signature();
    let mut ok = true;
    for i in 0..8 {
        ok &= d[SIGNATURE + i] == s[i];
    }
    ok
}

// Updates taken 0 to 4,096, revisions out 1 to 64, numbers given out 1 to 64.
fn counters_in(d: &[u8]) -> bool
    requires { length d.now ≡ lower_bytes }
    ensures { result ≡ counters_in (split d.now counters_part) }
{
    let updates = read::updates(d);
    let out = read::out(d);
    let given = read::given(d);
    (updates < Table::UPDATES_LIMIT)
        & ((0 < out)
            & ((out < Table::REVISIONS_LIMIT) & ((0 < given) & (given < Table::REVISIONS_LIMIT))))
}

// The cells of each revision's record.
fn records_in(d: &[u8]) -> bool
    requires { length d.now ≡ lower_bytes }
    ensures { result ≡ records_in (split d.now) }
{
    let state = bytes_below(d, STATE, Table::REVISIONS, Table::STATE_LIMIT as u8);
    let used = bytes_below(d, USED, Table::REVISIONS, Table::USED_LIMIT as u8);
    let last = words_below(d, LAST, Table::REVISIONS, Table::UPDATES as u16);
    let first = words_below(d, FIRST, Table::REVISIONS, Table::UPDATES as u16);
    let count = words_below(d, COUNT, Table::REVISIONS, Table::UPDATES_LIMIT as u16);
    let base = words_below(d, BASE, Table::REVISIONS, Table::UPDATES_LIMIT as u16);
    state & (used & (last & (first & (count & base))))
}

// Numbers that may be joined: 1 to 63.
fn queue_in(d: &[u8]) -> bool
    requires { length d.now ≡ lower_bytes }
    ensures { result ≡ queue_in (split d.now queue_part) }
{
    let mut ok = true;
    for n in &d[QUEUE..OPENED] {
        ok &= (0 < *n) & (*n < Table::REVISIONS as u8);
    }
    ok
}

// The layout, the queue and open transactions.
fn places_in(d: &[u8]) -> bool
    requires { length d.now ≡ lower_bytes }
    ensures { result ≡ places_in (split d.now) }
{
    let layout = bytes_below(d, LAYOUT, Table::REVISIONS, Table::REVISIONS as u8);
    let queue = queue_in(d);
    let opened = bytes_below(d, OPENED, Table::CLIENTS, Table::REVISIONS_LIMIT as u8);
    layout & (queue & opened)
}

// The cells that are one for the whole table: counters, single, settled and signature.
fn singles_in(d: &[u8]) -> bool
    requires { length d.now ≡ lower_bytes }
    ensures { result ≡ singles_in (split d.now) }
{
    let counters = counters_in(d);
    let single = bytes_below(d, SINGLE, 1, Table::SINGLE_LIMIT as u8);
    let settled = words_below(d, SETTLED, 1, Table::UPDATES_LIMIT as u16);
    counters & (single & (settled & is_signed(d)))
}

fn in_range(d: &[u8]) -> bool
    requires { length d.now ≡ lower_bytes }
    ensures { result ≡ in_range d.now }
{
    records_in(d) & (places_in(d) & singles_in(d))
}

pub fn check_range(d: &[u8]) -> RangeCheck
    requires { length d.now ≡ lower_bytes }
    ensures { result ≡ range_check d.now }
{
    if in_range(d) {
        return RangeCheck::Sound;
    }
    RangeCheck::Damaged
}
