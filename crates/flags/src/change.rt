// What a fork and a join make of the flags, by value: rows of flags in, rows of flags out.
ghost use Rattle.std.specs.Prelude.{◌≡◌, cond, not, ◌||◌, ◌&&◌, ◌<◌, eqb, ℕ, length};
ghost use Rattle.cells.specs.Words.{byte};
ghost use Rattle.cells.specs.Sizes.{clients, revisions};
ghost use Rattle.cells.specs.Flags.{flag_at, row_bytes, rows, flag_of};
ghost use Rattle.cells.specs.CellSteps.{fork_caught, join_caught};

use crate::{bits, rows, words};
use sizes::numbers::{Revision, wide};
use sizes::table::Table;

// The row with one flag alone.
pub fn only(r: Revision) -> [u8; Table::FLAGS]
    requires { r.0 < revisions }
    ensures { result ≡ row_bytes 8 (λ y. eqb y r.0) }
{
    words::row(1u64 << wide(r.0))
}

fn flag(row: [u8; Table::FLAGS], r: Revision) -> bool
    requires { r.0 < revisions }
    ensures { result ≡ flag_at row r.0 }
{
    (words::word(row) >> wide(r.0)) % 2 == 1
}

// Each byte of two rows, made one.
fn both<F: Fn(u8, u8) -> u8>(
    a: [u8; Table::FLAGS],
    b: [u8; Table::FLAGS],
    f: F,
) -> [u8; Table::FLAGS]
    requires { F.IsAlwaysCallable f }
    ensures { (length result ≡ 8) × ((k : ℕ) → k < 8 → F.post f (byte a k) (byte b k) (byte result k)) }
{
    let mut z = [0; Table::FLAGS];
    for k in 0..Table::FLAGS {
        z[k] = f(a[k], b[k]);
    }
    z
}

// The flags of either row.
pub fn either(a: [u8; Table::FLAGS], b: [u8; Table::FLAGS]) -> [u8; Table::FLAGS]
    ensures { result ≡ row_bytes 8 (λ y. flag_at a y || flag_at b y) }
{
    both(a, b, bits::either)
}

// The flags of a that b has not.
fn without(a: [u8; Table::FLAGS], b: [u8; Table::FLAGS]) -> [u8; Table::FLAGS]
    ensures { result ≡ row_bytes 8 (λ y. flag_at a y && not (flag_at b y)) }
{
    both(a, b, bits::without)
}

// The row with the flags of w as told. A loop over rows makes w once.
fn with(row: [u8; Table::FLAGS], w: [u8; Table::FLAGS], on: bool) -> [u8; Table::FLAGS]
    ensures { result ≡ row_bytes 8 (λ y. cond (flag_at w y) on (flag_at row y)) }
{
    if on { either(row, w) } else { without(row, w) }
}

// The row, and the flags of w if told so.
fn gain(row: [u8; Table::FLAGS], w: [u8; Table::FLAGS], on: bool) -> [u8; Table::FLAGS]
    ensures { result ≡ row_bytes 8 (λ y. flag_at row y || (on && flag_at w y)) }
{
    if on {
        return either(row, w);
    }
    either(row, [0; Table::FLAGS])
}

// Sixteen rows without the flags of w.
pub fn clear(
    s: [[u8; Table::FLAGS]; rows::BLOCK],
    w: [u8; Table::FLAGS],
) -> [[u8; Table::FLAGS]; rows::BLOCK]
    ensures { result ≡ rows 16 (λ x y. flag_of s x y && not (flag_at w y)) }
{
    let mut z = [[0; Table::FLAGS]; rows::BLOCK];
    for x in 0..rows::BLOCK {
        z[x] = without(s[x], w);
    }
    z
}

// The joiner's row of seen flags after the join, from its own row and the joinee's.
pub fn join_seen(pair: [[u8; Table::FLAGS]; 2]) -> [u8; Table::FLAGS]
    ensures { result ≡ row_bytes 8 (λ y. flag_of pair 0 y || flag_of pair 1 y) }
{
    let joiner = pair[0];
    let joinee = pair[1];
    either(joiner, joinee)
}

// The caught-up flags after the parent forked the child.
pub fn fork_caught(
    caught: [[u8; Table::FLAGS]; Table::CLIENTS],
    parent: Revision,
    child: Revision,
) -> [[u8; Table::FLAGS]; Table::CLIENTS]
    requires { (parent.0 < revisions) × (child.0 < revisions) }
    ensures { result ≡ rows clients (fork_caught (flag_of caught) parent.0 child.0) }
{
    let column = only(child);
    let mut z = [[0; Table::FLAGS]; Table::CLIENTS];
    for x in 0..Table::CLIENTS {
        let row = caught[x];
        z[x] = with(row, column, flag(row, parent));
    }
    z
}

// The caught-up flags after a joined b.
pub fn join_caught(
    caught: [[u8; Table::FLAGS]; Table::CLIENTS],
    a: Revision,
    b: Revision,
) -> [[u8; Table::FLAGS]; Table::CLIENTS]
    requires { (a.0 < revisions) × (b.0 < revisions) }
    ensures { result ≡ rows clients (join_caught (flag_of caught) a.0 b.0) }
{
    let column = only(a);
    let mut z = [[0; Table::FLAGS]; Table::CLIENTS];
    for x in 0..Table::CLIENTS {
        let row = caught[x];
        z[x] = gain(row, column, flag(row, b));
    }
    z
}
