// The order of a revision: what it inherited from each revision left of it, from the left, then its own list.
ghost use Rattle.std.specs.Prelude.{◌≡◌, true, ◌||◌, [], ◌++◌, ◌∷◌, ◌+◌, ◌<◌, ◌≤◌, ltb, drop, length};
ghost use Rattle.lists.specs.Arranged.{behind, flat_back};
ghost use Rattle.cells.specs.Sizes.{lower_bytes, revisions, updates};
ghost use Rattle.cells.specs.Words.{byte};
ghost use Rattle.cells.specs.Cells.{flagged, outs, own};
ghost use Rattle.cells.specs.Decode.{cells};
ghost use Rattle.cells.specs.Order.{base_in, inherited, order, picks};
ghost use Rattle.cells.specs.Range.{in_range};
ghost use Rattle.order.specs.Added.{Added, offered};

use crate::links;
use fields::read;
use sizes::numbers::Revision;
use sizes::table::Table;

// x goes behind the first n, if there is room.
fn push(out: &mut [u16], n: usize, x: u16) -> usize
    requires { (length out.old ≡ updates) × (n ≤ updates) }
    ensures { Added out.old n (x ∷ []) out.new result }
{
    if n == Table::UPDATES {
        return n;
    }
    out[n] = x;
    n + 1
}

// Whether r inherited u, the entry at place i of a list of which it inherited the first `base`.
#[tactic(auto, using(crate::proofs::Laws::past_flags))]
pub fn wanted(d: &[u8], r: Revision, base: usize, i: usize, u: usize) -> bool
    requires { (length d.now ≡ lower_bytes) × (r.0 < revisions) }
    ensures { result ≡ (ltb i base || flagged (cells d.now) r.0 u) }
{
    if i < base {
        return true;
    }
    if Table::UPDATES <= u {
        return false;
    }
    read::inherited(d, r, u)
}

// The entry x at place i goes behind the first n, if r inherited it.
#[tactic(auto, using(crate::proofs::Laws::added_none))]
fn offer(d: &[u8], r: Revision, base: usize, i: usize, x: u16, out: &mut [u16], n: usize) -> usize
    requires { (length d.now ≡ lower_bytes) × (r.0 < revisions) × (length out.old ≡ updates) × (n ≤ updates) }
    ensures { Added out.old n (offered base (flagged (cells d.now) r.0) i x) out.new result }
{
    if wanted(d, r, base, i, usize::from(x)) {
        return push(out, n, x);
    }
    n
}

// Of a list what r inherited goes behind the first n.
fn sift(d: &[u8], r: Revision, base: usize, list: &[u16], out: &mut [u16], n: usize) -> usize
    requires { (length d.now ≡ lower_bytes) × (r.0 < revisions) × (length out.old ≡ updates) × (n ≤ updates) }
    ensures { Added out.old n (picks base (flagged (cells d.now) r.0) list.now) out.new result }
{
    let mut m = n;
    for (i, x) in list.iter().enumerate() {
        m = offer(d, r, base, i, *x, out, m);
    }
    m
}

// Of the own list of x, which goes into `room`, what r inherited, the first `base` and those flagged, goes behind the first n.
fn add_some(
    d: &[u8],
    r: Revision,
    base: usize,
    x: Revision,
    room: &mut [u16],
    out: &mut [u16],
    n: usize,
) -> usize
    requires { (length d.now ≡ lower_bytes) × (in_range d.now ≡ true) × (r.0 < revisions) × (x.0 < revisions) × (length room.old ≡ updates) × (length out.old ≡ updates) × (n ≤ updates) }
    ensures { Added out.old n (picks base (flagged (cells d.now) r.0) (own (cells d.now) x.0)) out.new result }
{
    let many = links::own_list(d, x, room);
    sift(d, r, base, &room[..many], out, n)
}

// How many of the first entries of x's list r inherited by count.
pub fn base_in(d: &[u8], r: Revision, x: Revision) -> usize
    requires { (length d.now ≡ lower_bytes) × (r.0 < revisions) }
    ensures { result ≡ base_in (cells d.now) r.0 x.0 }
{
    if x.0 == 0 {
        return read::base(d, r);
    }
    0
}

// The revision at a place of the layout: a number in range on every table in range.
pub fn at_place(d: &[u8], i: usize) -> Revision
    requires { (length d.now ≡ lower_bytes) × (in_range d.now ≡ true) × (i < revisions) }
    ensures { (result.0 ≡ byte (cells d.now).layout i) × (result.0 < revisions) }
{
    let Ok(r) = Revision::try_from(read::place(d, i) as u8) else {
        return Revision::main();
    };
    r
}

// The place of r among those that are out, or their number.
pub fn place_of(d: &[u8], r: Revision) -> usize
    requires { (length d.now ≡ lower_bytes) × (in_range d.now ≡ true) }
    ensures { (result ≤ revisions) × (behind r.0 (outs (cells d.now)) ≡ drop (result + 1) (outs (cells d.now))) }
{
    let n = read::out(d);
    for j in 0..n {
        let x = at_place(d, j);
        if x == r {
            return j;
        }
    }
    n
}

// What r inherited from the revisions behind place j, from the left. One room does for all lists.
fn add_left(d: &[u8], r: Revision, j: usize, room: &mut [u16], out: &mut [u16]) -> usize
    requires { (length d.now ≡ lower_bytes) × (in_range d.now ≡ true) × (r.0 < revisions) × (j ≤ revisions) × (length room.old ≡ updates) × (length out.old ≡ updates) }
    ensures { Added out.old 0 (flat_back (inherited (cells d.now) r.0) (drop (j + 1) (outs (cells d.now)))) out.new result }
{
    let mut m: usize = 0;
    for i in (j + 1..read::out(d)).rev() {
        let x = at_place(d, i);
        let base = base_in(d, r, x);
        m = add_some(d, r, base, x, room, out, m);
    }
    m
}

// The order of r into the first places of `out`; how many entries it has.
pub fn list(d: &[u8], r: Revision, out: &mut [u16]) -> usize
    requires { (length d.now ≡ lower_bytes) × (in_range d.now ≡ true) × (r.0 < revisions) × (length out.old ≡ updates) }
    ensures { (result ≡ length (order (cells d.now) r.0)) × (out.new ≡ order (cells d.now) r.0 ++ drop result out.old) }
{
    let j = place_of(d, r);
    let mut room = links::room();
    let m = add_left(d, r, j, &mut room, out);
    let n = read::count(d, r);
    add_some(d, r, n, r, &mut room, out, m)
}
