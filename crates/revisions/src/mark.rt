// A revision is marked: it forks a mark, which bears a name.
ghost use Rattle.std.specs.Prelude.{◌≡◌, true, ◌<◌, length};
ghost use Rattle.cells.specs.Sizes.{lower_bytes, revisions};
ghost use Rattle.cells.specs.Range.{in_range};
ghost use Rattle.cells.specs.Steps.{mark_bytes};

use crate::fork;
use sizes::numbers::Revision;
use sizes::table::Table;
use stores::write;

// The mark's number is not the main revision's.
pub fn mark(d: &mut [u8], parent: Revision, mark: Revision, name: &[u8])
    requires { (length d.old ≡ lower_bytes) × (in_range d.old ≡ true) × (parent.0 < revisions) × (0 < mark.0) × (mark.0 < revisions) × (length name.now ≡ 4) }
    ensures { d.new ≡ mark_bytes d.old parent.0 mark.0 name.now }
{
    fork::branch(d, parent, mark);
    write::state(d, mark, Table::STATE_MARKED);
    write::name(d, mark, name);
}
