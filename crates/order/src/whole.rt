// Whether an order is whole. An order has 4,096 entries at most; on a day it has them all, but in range are also contents with more.
ghost use Rattle.std.specs.Prelude.{◌≡◌, true, not, ◌+◌, ◌<◌, ◌≤◌, ltb, drop, length};
ghost use Rattle.cells.specs.Sizes.{lower_bytes, revisions, updates};
ghost use Rattle.cells.specs.Cells.{outs};
ghost use Rattle.cells.specs.Decode.{cells};
ghost use Rattle.cells.specs.Range.{in_range};
ghost use Rattle.order.specs.Counts.{counts};

use crate::visible::at_place;
use fields::read;
use sizes::numbers::Revision;
use sizes::table::Table;

// Whether the own lists of r and of the revisions behind place j have 4,096 entries at most, together.
pub fn fits(d: &[u8], r: Revision, j: usize) -> bool
    requires { (length d.now ≡ lower_bytes) × (in_range d.now ≡ true) × (r.0 < revisions) × (j ≤ revisions) }
    ensures { result ≡ not (ltb updates (counts (cells d.now) (drop (j + 1) (outs (cells d.now))) + (cells d.now).count r.0)) }
{
    let n = read::out(d);
    let mut left = Table::UPDATES - read::count(d, r);
    for i in j + 1..n {
        let many = read::count(d, at_place(d, i));
        if left < many {
            return false;
        }
        left -= many;
    }
    true
}
