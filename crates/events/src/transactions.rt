// Open transactions: one a client, each on one revision.
ghost use Rattle.std.specs.Prelude.{◌≡◌, ◌<◌, length};
ghost use Rattle.cells.specs.Sizes.{lower_bytes, clients, revisions};
ghost use Rattle.cells.specs.Decode.{cells};
ghost use Rattle.cells.specs.CellSteps.{close_settled};
ghost use Rattle.cells.specs.Steps.{close_bytes, query_bytes};

use fields::read;
use sizes::numbers::{Client, Revision, wide};
use sizes::table::Table;
use stores::write;

// An event of c on r: c's transaction is on r, and c has caught up with r alone.
pub fn open(d: &mut [u8], c: Client, r: Revision)
    requires { (length d.old ≡ lower_bytes) × (c.0 < clients) × (r.0 < revisions) }
    ensures { d.new ≡ query_bytes d.old c.0 r.0 }
{
    write::caught_only(d, c, r);
    write::opened(d, c, wide(r.0));
}

// How many of the main revision's own updates are settled once c's transaction is closed: all, where it is on that revision.
fn settled_after(d: &[u8], c: Client) -> usize
    requires { (length d.now ≡ lower_bytes) × (c.0 < clients) }
    ensures { (result ≡ close_settled (cells d.now) c.0) × (result < 65536) }
{
    if read::opened(d, c) == 0 {
        return read::count(d, Revision::main());
    }
    read::settled(d)
}

// c's open transaction, if any, is closed.
pub fn close(d: &mut [u8], c: Client)
    requires { (length d.old ≡ lower_bytes) × (c.0 < clients) }
    ensures { d.new ≡ close_bytes d.old c.0 }
{
    let settled = settled_after(d, c);
    write::opened(d, c, Table::CLOSED);
    write::settled(d, settled);
}
