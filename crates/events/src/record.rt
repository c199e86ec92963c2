// An update or a query is recorded: an event of a client on a revision.
ghost use Rattle.std.specs.Prelude.{◌≡◌, true, ◌<◌, length};
ghost use Rattle.cells.specs.Sizes.{lower_bytes, clients, revisions, updates};
ghost use Rattle.cells.specs.Decode.{cells};
ghost use Rattle.cells.specs.Range.{in_range};
ghost use Rattle.cells.specs.Steps.{query_bytes, update_bytes};

use crate::transactions;
use linking::own;
use sizes::numbers::{Client, Revision};

// The update's number is the answer: the count of updates taken before it.
pub fn update(d: &mut [u8], c: Client, r: Revision) -> usize
    requires { (length d.old ≡ lower_bytes) × (in_range d.old ≡ true) × (c.0 < clients) × (r.0 < revisions) × ((cells d.old).updates < updates) }
    ensures { (result ≡ (cells d.old).updates) × (d.new ≡ update_bytes d.old c.0 r.0) }
{
    let u = own::append(d, r);
    transactions::open(d, c, r);
    u
}

pub fn query(d: &mut [u8], c: Client, r: Revision)
    requires { (length d.old ≡ lower_bytes) × (c.0 < clients) × (r.0 < revisions) }
    ensures { d.new ≡ query_bytes d.old c.0 r.0 }
{
    transactions::open(d, c, r);
}
