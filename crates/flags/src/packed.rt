// What a fork, a join and an event make of packed flags: loaded, changed by value, stored.
ghost use Rattle.std.specs.Prelude.{◌≡◌, not, ◌&&◌, ◌<◌, eqb, length};
ghost use Rattle.cells.specs.Sizes.{clients, revisions};
ghost use Rattle.cells.specs.Flags.{flag_at, flag_in, pack, put_row};
ghost use Rattle.lists.specs.Pool.{fork_pool, join_pool};
ghost use Rattle.cells.specs.CellSteps.{fork_caught, join_caught};

use crate::{change, rows};
use sizes::numbers::{Client, Revision, wide};
use sizes::table::Table;

// Sixteen rows without the flags of w.
fn clear_block(t: &mut [u8], w: [u8; Table::FLAGS])
    requires { length t.old ≡ 128 }
    ensures { t.new ≡ pack 16 (λ x y. flag_in 8 16 t.old x y && not (flag_at w y)) }
{
    let s = rows::load16(t);
    let z = change::clear(s, w);
    rows::store16(t, z);
}

// Every revision's row without the flags of w.
fn clear(t: &mut [u8], w: [u8; Table::FLAGS])
    requires { length t.old ≡ 512 }
    ensures { t.new ≡ pack revisions (λ x y. flag_in 8 revisions t.old x y && not (flag_at w y)) }
{
    for k in 0..Table::REVISIONS / rows::BLOCK {
        let at = Table::FLAGS * (rows::BLOCK * k);
        let end = at + Table::FLAGS * rows::BLOCK;
        clear_block(&mut t[at..end], w);
    }
}

// The child's column is cleared; the child's row is the parent's, and the parent has seen the child's fork.
pub fn fork_seen(t: &mut [u8], parent: Revision, child: Revision)
    requires { (length t.old ≡ 512) × (parent.0 < revisions) × (child.0 < revisions) }
    ensures { t.new ≡ pack revisions (fork_pool (flag_in 8 revisions t.old) parent.0 child.0) }
{
    let column = change::only(child);
    clear(t, column);
    let x = wide(parent.0);
    let row = rows::load_row(t, x);
    rows::store_row(t, wide(child.0), row);
    rows::store_row(t, x, change::either(row, column));
}

// The joiner's row alone changes, and only it and the joinee's are loaded.
pub fn join_seen(t: &mut [u8], a: Revision, b: Revision)
    requires { (length t.old ≡ 512) × (a.0 < revisions) × (b.0 < revisions) }
    ensures { t.new ≡ put_row 8 t.old a.0 (join_pool (flag_in 8 revisions t.old) a.0 b.0 a.0) }
{
    let x = wide(a.0);
    let pair = [rows::load_row(t, x), rows::load_row(t, wide(b.0))];
    let row = change::join_seen(pair);
    rows::store_row(t, x, row);
}

pub fn fork_caught(t: &mut [u8], parent: Revision, child: Revision)
    requires { (length t.old ≡ 128) × (parent.0 < revisions) × (child.0 < revisions) }
    ensures { t.new ≡ pack clients (fork_caught (flag_in 8 clients t.old) parent.0 child.0) }
{
    let s = rows::load16(t);
    let z = change::fork_caught(s, parent, child);
    rows::store16(t, z);
}

pub fn join_caught(t: &mut [u8], a: Revision, b: Revision)
    requires { (length t.old ≡ 128) × (a.0 < revisions) × (b.0 < revisions) }
    ensures { t.new ≡ pack clients (join_caught (flag_in 8 clients t.old) a.0 b.0) }
{
    let s = rows::load16(t);
    let z = change::join_caught(s, a, b);
    rows::store16(t, z);
}

// Row c has flag r alone.
pub fn set_only(t: &mut [u8], c: Client, r: Revision)
    requires { (length t.old ≡ 128) × (c.0 < clients) × (r.0 < revisions) }
    ensures { t.new ≡ put_row 8 t.old c.0 (λ y. eqb y r.0) }
{
    let row = change::only(r);
    rows::store_row(t, wide(c.0), row);
}
