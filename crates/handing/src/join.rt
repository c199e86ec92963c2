// A revision joins another, which is handed in.
ghost use Rattle.std.specs.Prelude.{◌≡◌, cond, true, ◌<◌, eqb, length};
ghost use Rattle.cells.specs.Sizes.{lower_bytes, main, revisions};
ghost use Rattle.cells.specs.Parts.{glue, split};
ghost use Rattle.cells.specs.Decode.{cells};
ghost use Rattle.cells.specs.Range.{in_range};
ghost use Rattle.cells.specs.Steps.{join_bytes, merge_parts};

use crate::drop;
use fields::read;
use linking::own;
use sizes::numbers::Revision;
use stores::write;

// How many of the main revision's own updates are settled once a has `total`: all, where a is that revision.
fn settled_with(d: &[u8], a: Revision, total: usize) -> usize
    requires { (length d.now ≡ lower_bytes) × (total < 65536) }
    ensures { (result ≡ cond (eqb a.0 main) total (cells d.now).settled) × (result < 65536) }
{
    if a.0 == 0 {
        return total;
    }
    read::settled(d)
}

// a gets b's own list, what b has seen, and who has caught up with b. How many updates a gained is the answer.
fn merge(d: &mut [u8], a: Revision, b: Revision) -> usize
    requires { (length d.old ≡ lower_bytes) × (in_range d.old ≡ true) × (a.0 < revisions) × (b.0 < revisions) }
    ensures { (result ≡ (cells d.old).count b.0) × (d.new ≡ glue (merge_parts (split d.old) a.0 b.0)) }
{
    let gain = read::count(d, b);
    let total = own::counted(read::count(d, a) + gain);
    let settled = settled_with(d, a, total);
    own::splice(d, a, b);
    write::count(d, a, total);
    write::settled(d, settled);
    write::join_seen(d, a, b);
    write::join_caught(d, a, b);
    gain
}

// How many updates a gained is the answer.
pub fn join(d: &mut [u8], a: Revision, b: Revision) -> usize
    requires { (length d.old ≡ lower_bytes) × (in_range d.old ≡ true) × (a.0 < revisions) × (b.0 < revisions) }
    ensures { (result ≡ (cells d.old).count b.0) × (d.new ≡ join_bytes d.old a.0 b.0) }
{
    let gain = merge(d, a, b);
    drop::drop(d, b);
    gain
}
