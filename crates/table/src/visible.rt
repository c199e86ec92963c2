// The updates visible at a revision of a whole table.
ghost use Rattle.std.specs.Prelude.{true, ◌≡◌, ◌<◌, ◌≤◌, length, take};
ghost use Rattle.cells.specs.Sizes.{revisions, updates};
ghost use Rattle.cells.specs.Order.{order};
ghost use Rattle.cells.specs.Range.{in_range};
ghost use Rattle.table.specs.Halves.{cells_of, low};
ghost use Rattle.table.specs.Out.{table_bytes};

use sizes::numbers::Revision;
use sizes::table::Table;

// The order of r into the first places of `out`; how many entries it has.
pub fn visible(t: &[u8], r: Revision, out: &mut [u16]) -> usize
    requires { (length t.now ≡ table_bytes) × (in_range (low t.now) ≡ true) × (r.0 < revisions) × (length out.old ≡ updates) }
    ensures { (result ≤ updates) × (result ≤ length out.new) × (result ≡ length (order (cells_of t.now) r.0)) × (take result out.new ≡ order (cells_of t.now) r.0) }
{
    order::visible::list(&t[0..Table::LOWER], r, out)
}
