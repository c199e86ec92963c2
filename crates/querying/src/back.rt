// The walk back along the order of a revision, for one bib: the bib's updates are kept, up to the first whose effect is absolute,
// since none before it counts.
ghost use Rattle.std.specs.Prelude.{◌≡◌, true, false, [], ◌++◌, ◌+◌, ◌<◌, ◌≤◌, drop, length};
ghost use Rattle.std.specs.ControlFlow.{MatchControlFlow};
ghost use Rattle.cells.specs.Sizes.{lower_bytes, revisions, updates};
ghost use Rattle.cells.specs.Cells.{flagged, outs, own};
ghost use Rattle.cells.specs.Decode.{cells};
ghost use Rattle.cells.specs.Order.{inherited, picks};
ghost use Rattle.cells.specs.Range.{in_range};
ghost use Rattle.lists.specs.Arranged.{flat_back};
ghost use Rattle.order.specs.Added.{offered};
ghost use Rattle.order.specs.Counts.{counts};
ghost use Rattle.entries.specs.Sizes.{entry_bytes};
ghost use Rattle.entries.specs.Entries.{entry_at};
ghost use Rattle.entries.specs.Folded.{standing_of};
ghost use Rattle.entries.specs.Walked.{StandsFor, Walked};
ghost use Rattle.querying.specs.Left.{left};

use entries::kept::keep;
use fields::read;
use order::visible::{at_place, base_in, wanted};
use sizes::numbers::Revision;
use sizes::table::Table;
use std::ops::ControlFlow;

// What is sought in a list: updates of the bib, among those that r sees, the first `base` of the list and those flagged.
#[derive(Clone, Copy)]
struct Sought {
    r: Revision,
    base: usize,
    bib: u16,
}

// A walk on its way: so many updates of a list are left, which end at `at`; the numbers kept stand from `from` on.
#[derive(Clone, Copy)]
struct Rest {
    at: usize,
    left: usize,
    from: usize,
}

// Update u, at place i of a list, goes in front of those kept, if it is sought.
fn look(
    d: &[u8],
    h: &[u8],
    s: Sought,
    i: usize,
    u: usize,
    out: &mut [u16],
    from: usize,
) -> ControlFlow<usize, usize>
    requires { (length d.now ≡ lower_bytes) × (length h.now ≡ entry_bytes) × (s.r.0 < revisions) × (u < updates) × (0 < from) × (from ≤ length out.old) }
    ensures { Walked (entry_at h.now) s.bib 1 (offered s.base (flagged (cells d.now) s.r.0) i u) out.old from out.new result }
{
    if wanted(d, s.r, s.base, i, u) {
        return keep(h, u as u16, s.bib, out, from);
    }
    ControlFlow::Continue(from)
}

// A run of the walk: while each link leads to the next lower number the code goes on with that number, and need not wait for the link.
fn run(
    d: &[u8],
    h: &[u8],
    s: Sought,
    at: usize,
    n: usize,
    out: &mut [u16],
    from: usize,
) -> ControlFlow<usize, Rest>
    requires { (length d.now ≡ lower_bytes) × (length h.now ≡ entry_bytes) × (s.r.0 < revisions) × (at < updates) × (0 < n) × (n ≤ from) × (from ≤ length out.old) }
    ensures { MatchControlFlow result
        (λ w. (w.at < updates) × (w.left < n) × (w.from ≤ from) × (from + w.left ≤ w.from + n)
        × StandsFor (entry_at h.now) s.bib false (left d.now s.r.0 s.base w.at w.left) (drop w.from out.new) (left d.now s.r.0 s.base at n ++ drop from out.old))
        (λ p. (p ≤ from) × (from ≤ p + n) × StandsFor (entry_at h.now) s.bib true [] (drop p out.new) (left d.now s.r.0 s.base at n ++ drop from out.old)) }
{
    let mut u = at;
    let mut p = from;
    for i in (0..n).rev() {
        p = look(d, h, s, i, u, out, p)?;
        let v = read::link(d, u);
        if v + 1 != u {
            return ControlFlow::Continue(Rest {
                at: v,
                left: i,
                from: p,
            });
        }
        u -= 1;
    }
    ControlFlow::Continue(Rest {
        at: u,
        left: 0,
        from: p,
    })
}

// The own list of x, run by run.
fn walk_list(
    d: &[u8],
    h: &[u8],
    s: Sought,
    x: Revision,
    out: &mut [u16],
    from: usize,
) -> ControlFlow<usize, usize>
    requires { (length d.now ≡ lower_bytes) × (in_range d.now ≡ true) × (length h.now ≡ entry_bytes) × (s.r.0 < revisions) × (x.0 < revisions) × ((cells d.now).count x.0 ≤ from) × (from ≤ length out.old) }
    ensures { Walked (entry_at h.now) s.bib ((cells d.now).count x.0) (picks s.base (flagged (cells d.now) s.r.0) (own (cells d.now) x.0)) out.old from out.new result }
{
    let mut u = read::last(d, x);
    let mut i = read::count(d, x);
    let mut p = from;
    while 0 < i {
        let w = run(d, h, s, u, i, out, p)?;
        u = w.at;
        i = w.left;
        p = w.from;
    }
    ControlFlow::Continue(p)
}

// What r inherited from the revisions behind place j, the nearest first.
fn walk_behind(
    d: &[u8],
    h: &[u8],
    r: Revision,
    j: usize,
    bib: u16,
    out: &mut [u16],
    from: usize,
) -> ControlFlow<usize, usize>
    requires { (length d.now ≡ lower_bytes) × (in_range d.now ≡ true) × (length h.now ≡ entry_bytes) × (r.0 < revisions) × (j ≤ revisions) × (counts (cells d.now) (drop (j + 1) (outs (cells d.now))) ≤ from) × (from ≤ length out.old) }
    ensures { Walked (entry_at h.now) bib (counts (cells d.now) (drop (j + 1) (outs (cells d.now)))) (flat_back (inherited (cells d.now) r.0) (drop (j + 1) (outs (cells d.now)))) out.old from out.new result }
{
    let n = read::out(d);
    let mut p = from;
    for i in j + 1..n {
        let x = at_place(d, i);
        let base = base_in(d, r, x);
        p = walk_list(d, h, Sought { r, base, bib }, x, out, p)?;
    }
    ControlFlow::Continue(p)
}

// The order of r, which stands in place j: its own list, then what it inherited. The numbers kept stand from the answer on.
pub fn walk(d: &[u8], h: &[u8], r: Revision, j: usize, bib: u16, out: &mut [u16]) -> usize
    requires { (length d.now ≡ lower_bytes) × (in_range d.now ≡ true) × (length h.now ≡ entry_bytes) × (r.0 < revisions) × (j ≤ revisions) × (counts (cells d.now) (drop (j + 1) (outs (cells d.now))) + (cells d.now).count r.0 ≤ updates) × (length out.old ≡ updates) }
    ensures { (result ≤ updates) × (standing_of (entry_at h.now) bib (drop result out.new) ≡ standing_of (entry_at h.now) bib (flat_back (inherited (cells d.now) r.0) (drop (j + 1) (outs (cells d.now))) ++ own (cells d.now) r.0)) }
{
    let base = read::count(d, r);
    match walk_list(d, h, Sought { r, base, bib }, r, out, Table::UPDATES) {
        ControlFlow::Break(p) => p,
        ControlFlow::Continue(p) => match walk_behind(d, h, r, j, bib, out, p) {
            ControlFlow::Break(q) => q,
            ControlFlow::Continue(q) => q,
        },
    }
}
