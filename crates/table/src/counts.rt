// Two counts of a whole table: the updates taken, and a revision's own.
ghost use Rattle.std.specs.Prelude.{◌≡◌, ◌<◌, length};
ghost use Rattle.cells.specs.Sizes.{revisions};
ghost use Rattle.table.specs.Halves.{cells_of};
ghost use Rattle.table.specs.Out.{table_bytes};

use fields::read;
use sizes::numbers::Revision;
use sizes::table::Table;

#[tactic(auto, unfolding(crate::specs::Halves::low))]
pub fn taken(t: &[u8]) -> usize
    requires { length t.now ≡ table_bytes }
    ensures { (result ≡ (cells_of t.now).updates) × (result < 65536) }
{
    read::updates(&t[0..Table::LOWER])
}

#[tactic(auto, unfolding(crate::specs::Halves::low))]
pub fn own(t: &[u8], r: Revision) -> usize
    requires { (length t.now ≡ table_bytes) × (r.0 < revisions) }
    ensures { (result ≡ (cells_of t.now).count r.0) × (result < 65536) }
{
    read::count(&t[0..Table::LOWER], r)
}
