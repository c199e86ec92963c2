// The entry of a number replaced.
ghost use Rattle.std.specs.Prelude.{◌≡◌, ◌<◌, length};
ghost use Rattle.entries.specs.Sizes.{entry_bytes, updates, clients, bib_range};
ghost use Rattle.entries.specs.Stored.{entry};
ghost use Rattle.entries.specs.Entries.{wrote};

use crate::store::store;
use sizes::numbers::Client;
use sizes::table::Table;
use updates::kind::Kind;

pub fn write(t: &mut [u8], n: u16, kind: Kind, c: Client, bib: u16, v: u32)
    requires { (length t.old ≡ entry_bytes) × (n < updates) × (c.0 < clients) × (bib < bib_range) }
    ensures { t.new ≡ wrote t.old n (entry kind c.0 bib v) }
{
    let at = Table::ENTRY * usize::from(n);
    store(&mut t[at..at + Table::ENTRY], kind, c, bib, v);
}
