// Own lists and their links written.
ghost use Rattle.std.specs.Prelude.{◌≡◌, cond, true, ◌<◌, eqb, length};
ghost use Rattle.cells.specs.Sizes.{lower_bytes, revisions, updates};
ghost use Rattle.cells.specs.Parts.{glue, split};
ghost use Rattle.cells.specs.Decode.{cells};
ghost use Rattle.cells.specs.Range.{in_range};
ghost use Rattle.cells.specs.CellSteps.{counted};
ghost use Rattle.cells.specs.Steps.{append_parts, link_parts, splice_parts};

use fields::read;
use sizes::numbers::Revision;
use sizes::table::Table;
use stores::write;

// The link of u is v.
pub fn link(d: &mut [u8], u: usize, v: usize)
    requires { (length d.old ≡ lower_bytes) × (u < updates) × (v < updates) }
    ensures { d.new ≡ glue (link_parts (split d.old) u v) }
{
    write::link_low(d, u, v % 256);
    write::link_high(d, u, v / 256);
}

// The first update of r's list, or u where the list is empty.
fn first_or(d: &[u8], r: Revision, u: usize) -> usize
    requires { (length d.now ≡ lower_bytes) × (r.0 < revisions) × (u < 65536) }
    ensures { (result ≡ cond (eqb ((cells d.now).count r.0) 0) u ((cells d.now).first r.0)) × (result < 65536) }
{
    if read::count(d, r) == 0 {
        return u;
    }
    read::first(d, r)
}

// A count stops at its range. On a day none would pass it.
pub fn counted(n: usize) -> usize
    ensures { (result ≡ counted n) × (result < 65536) }
{
    n.min(Table::UPDATES)
}

// The next update number goes to the end of r's own list. The number is the answer.
pub fn append(d: &mut [u8], r: Revision) -> usize
    requires { (length d.old ≡ lower_bytes) × (in_range d.old ≡ true) × (r.0 < revisions) × ((cells d.old).updates < updates) }
    ensures { (result ≡ (cells d.old).updates) × (d.new ≡ glue (append_parts (split d.old) r.0)) }
{
    let u = read::updates(d);
    let last = read::last(d, r);
    let count = counted(read::count(d, r) + 1);
    let first = first_or(d, r, u);
    link(d, u, last);
    write::last(d, r, u);
    write::first(d, r, first);
    write::count(d, r, count);
    write::updates(d, u + 1);
    u
}

// b's own list goes to the end of a's, unless it is empty.
pub fn splice(d: &mut [u8], a: Revision, b: Revision)
    requires { (length d.old ≡ lower_bytes) × (in_range d.old ≡ true) × (a.0 < revisions) × (b.0 < revisions) }
    ensures { d.new ≡ glue (splice_parts (split d.old) a.0 b.0) }
{
    if read::count(d, b) == 0 {
        return;
    }
    let from = read::first(d, b);
    let to = read::last(d, a);
    let end = read::last(d, b);
    let first = first_or(d, a, from);
    link(d, from, to);
    write::last(d, a, end);
    write::first(d, a, first);
}
