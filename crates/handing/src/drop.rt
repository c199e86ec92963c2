// A mark is dropped, or a joinee handed in: it is out no longer, and its number may be used again.
ghost use Rattle.std.specs.Prelude.{◌≡◌, true, ◌-◌, ◌<◌, length};
ghost use Rattle.cells.specs.Sizes.{lower_bytes, revisions};
ghost use Rattle.cells.specs.Decode.{cells};
ghost use Rattle.cells.specs.Range.{in_range};
ghost use Rattle.cells.specs.CellSteps.{one_fewer};
ghost use Rattle.cells.specs.Steps.{drop_bytes};

use fields::read;
use sizes::numbers::Revision;
use sizes::table::Table;
use stores::write;

// The first place of the queue that is not in use: as many are as numbers were given out and are not out.
fn queue_end(d: &[u8]) -> usize
    requires { (length d.now ≡ lower_bytes) × (in_range d.now ≡ true) }
    ensures { (result ≡ (cells d.now).given - (cells d.now).out) × (result < revisions) }
{
    read::given(d).saturating_sub(read::out(d))
}

// One revision fewer is out, and one at least. On a day the main revision is.
fn one_fewer(n: usize) -> usize
    requires { n < 256 }
    ensures { (result ≡ one_fewer n) × (result < 256) }
{
    n.saturating_sub(1).max(1)
}

pub fn drop(d: &mut [u8], r: Revision)
    requires { (length d.old ≡ lower_bytes) × (in_range d.old ≡ true) × (r.0 < revisions) }
    ensures { d.new ≡ drop_bytes d.old r.0 }
{
    let place = queue_end(d);
    let out = one_fewer(read::out(d));
    write::state(d, r, Table::STATE_JOINED);
    write::leave(d, r);
    write::queued(d, place, r);
    write::out(d, out);
}
