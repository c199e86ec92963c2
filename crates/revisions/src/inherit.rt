// What a forked revision inherits: from the main revision by count alone; from any other its count, its row and its own list.
ghost use Rattle.std.specs.Prelude.{◌≡◌, true, ◌<◌, length};
ghost use Rattle.cells.specs.Sizes.{lower_bytes, revisions};
ghost use Rattle.cells.specs.Parts.{glue, split};
ghost use Rattle.cells.specs.Flags.{row_bytes};
ghost use Rattle.cells.specs.Decode.{cells};
ghost use Rattle.cells.specs.Range.{in_range};
ghost use Rattle.cells.specs.CellSteps.{fork_row};
ghost use Rattle.cells.specs.Steps.{inherit_parts};

use fields::{read, row};
use flags::bits;
use order::links;
use sizes::numbers::Revision;
use sizes::table::Table;
use stores::write;

// The row of the parent, which is not the main revision, with the updates of its own list.
fn forked_row(d: &[u8], parent: Revision) -> [u8; Table::ROW]
    requires { (length d.now ≡ lower_bytes) × (in_range d.now ≡ true) × (0 < parent.0) × (parent.0 < revisions) }
    ensures { result ≡ row_bytes 512 (fork_row (cells d.now) parent.0) }
{
    let mut own = links::room();
    let n = links::own_list(d, parent, &mut own);
    let mut flags = row::load(d, parent);
    for update in &own[..n] {
        // every link is below 4,096, so the test never fails; with it no proof of that is needed here
        let u = usize::from(*update);
        if u < Table::UPDATES {
            flags[u / 8] = bits::set(flags[u / 8], u % 8);
        }
    }
    flags
}

fn by_count(d: &mut [u8], child: Revision)
    requires { (length d.old ≡ lower_bytes) × (child.0 < revisions) }
    ensures { d.new ≡ glue (inherit_parts (split d.old) 0 child.0) }
{
    let base = read::count(d, Revision::main());
    write::used(d, child, 0);
    write::base(d, child, base);
    write::count(d, child, 0);
}

fn by_row(d: &mut [u8], parent: Revision, child: Revision)
    requires { (length d.old ≡ lower_bytes) × (in_range d.old ≡ true) × (0 < parent.0) × (parent.0 < revisions) × (0 < child.0) × (child.0 < revisions) }
    ensures { d.new ≡ glue (inherit_parts (split d.old) parent.0 child.0) }
{
    let base = read::base(d, parent);
    let flags = forked_row(d, parent);
    write::row(d, child, flags);
    write::used(d, child, 1);
    write::base(d, child, base);
    write::count(d, child, 0);
}

pub fn inherit(d: &mut [u8], parent: Revision, child: Revision)
    requires { (length d.old ≡ lower_bytes) × (in_range d.old ≡ true) × (parent.0 < revisions) × (0 < child.0) × (child.0 < revisions) }
    ensures { d.new ≡ glue (inherit_parts (split d.old) parent.0 child.0) }
{
    if parent.0 == 0 {
        by_count(d, child);
        return;
    }
    by_row(d, parent, child);
}
