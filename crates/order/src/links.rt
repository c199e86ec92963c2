// Own lists, gathered along their links. The list of a revision runs through every revision joined into it and those joined into
// these; the number of earlier entries falls at each call.
ghost use Rattle.std.specs.Prelude.{◌≡◌, true, ◌++◌, ◌<◌, ◌≤◌, drop, length};
ghost use Rattle.cells.specs.Sizes.{lower_bytes, revisions, updates};
ghost use Rattle.cells.specs.Cells.{own};
ghost use Rattle.cells.specs.Decode.{cells};
ghost use Rattle.cells.specs.Range.{in_range};
ghost use Rattle.order.specs.Chain.{with_chain};

use fields::read;
use sizes::numbers::Revision;
use sizes::table::Table;

// Room for a list.
pub fn room() -> [u16; Table::UPDATES]
    ensures { length result ≡ updates }
{
    [0; Table::UPDATES]
}

// How many entries one call of `gather` puts in their places. With one a call, a list of 4,096 would need as many stack frames.
const CHUNK: usize = 64;

// How many of n entries are left to the next call: all but a chunk, or none.
fn rest(n: usize) -> usize
    requires { 0 < n }
    ensures { result < n }
{
    if n < CHUNK {
        return 0;
    }
    n - CHUNK
}

// What is left of a walk: so many updates, which end at `at`.
#[derive(Drop)]
pub struct Walk {
    pub at: usize,
    pub left: usize,
}

// A run of the walk, backwards: update `at` goes to the last of n places, the update before it to the place in front, and so on, while
// each link leads to the next lower number and more than m are left. Updates entered in a row have such links, so the code can go on
// with that number and need not wait for the link. What is left, gathered later, makes what all n gathered at once would have made.
fn run(d: &[u8], at: usize, n: usize, m: usize, out: &mut [u16]) -> Walk
    requires { (length d.now ≡ lower_bytes) × (at < updates) × (m < n) × (n ≤ length out.old) }
    ensures { (result.at < updates) × (m ≤ result.left) × (result.left < n) × (with_chain d.now result.at result.left out.new ≡ with_chain d.now at n out.old) }
{
    let mut u = at;
    for i in (m..n).rev() {
        let v = read::link(d, u);
        out[i] = u as u16;
        if v + 1 != u {
            return Walk { at: v, left: i };
        }
        u -= 1;
    }
    Walk { at: u, left: m }
}

// Of the n updates that end at `at` all but the first m, in their places, run by run. The answer is the last of those m.
fn gather_some(d: &[u8], at: usize, n: usize, m: usize, out: &mut [u16]) -> usize
    requires { (length d.now ≡ lower_bytes) × (at < updates) × (m ≤ n) × (n ≤ length out.old) }
    ensures { (result < updates) × (with_chain d.now result m out.new ≡ with_chain d.now at n out.old) }
{
    let mut u = at;
    let mut i = n;
    while m < i {
        let w = run(d, u, i, m, out);
        u = w.at;
        i = w.left;
    }
    u
}

// The n updates that end at `at`, in the first n places.
pub fn gather(d: &[u8], at: usize, n: usize, out: &mut [u16])
    requires { (length d.now ≡ lower_bytes) × (at < updates) × (n ≤ length out.old) }
    ensures { out.new ≡ with_chain d.now at n out.old }
{
    if n == 0 {
        return;
    }
    let m = rest(n);
    let u = gather_some(d, at, n, m, out);
    gather(d, u, m, out);
}

// The own list of r; how many it has.
pub fn own_list(d: &[u8], r: Revision, out: &mut [u16]) -> usize
    requires { (length d.now ≡ lower_bytes) × (in_range d.now ≡ true) × (r.0 < revisions) × (length out.old ≡ updates) }
    ensures { (result ≡ (cells d.now).count r.0) × (result ≤ updates) × (out.new ≡ own (cells d.now) r.0 ++ drop result out.old) }
{
    let n = read::count(d, r);
    let at = read::last(d, r);
    gather(d, at, n, out);
    n
}
