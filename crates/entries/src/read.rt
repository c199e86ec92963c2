// An entry by its number.
ghost use Rattle.std.specs.Prelude.{◌≡◌, ◌*◌, ◌<◌, drop, length, take};
ghost use Rattle.entries.specs.Sizes.{entry_bytes, updates};
ghost use Rattle.entries.specs.Entries.{entry_at};

use crate::entry::Entry;
use crate::load::{bib_of, kind_of, load};
use sizes::table::Table;
use updates::kind::Kind;

// The six bytes of a number that has bytes.
fn bytes_of(t: &[u8], n: u16) -> &[u8]
    requires { (length t.now ≡ entry_bytes) × (n < updates) }
    ensures { result.now ≡ take 6 (drop (6 * n) t.now) }
{
    let at = Table::ENTRY * usize::from(n);
    &t[at..at + Table::ENTRY]
}

// The bib alone, and the kind, of a number that has bytes.
#[tactic(auto, unfolding(crate::specs::Entries::entry_at))]
pub fn bib_at(t: &[u8], n: u16) -> u16
    requires { (length t.now ≡ entry_bytes) × (n < updates) }
    ensures { result ≡ (entry_at t.now n).bib }
{
    bib_of(bytes_of(t, n))
}

#[tactic(auto, unfolding(crate::specs::Entries::entry_at))]
pub fn kind_at(t: &[u8], n: u16) -> Kind
    requires { (length t.now ≡ entry_bytes) × (n < updates) }
    ensures { result ≡ (entry_at t.now n).kind }
{
    kind_of(bytes_of(t, n))
}

// A number past the last has no bytes, and the entry of a fresh day.
#[tactic(auto, using(crate::proofs::Entries::entry_past), unfolding(crate::specs::Entries::entry_at))]
pub fn read(t: &[u8], n: u16) -> Entry
    requires { length t.now ≡ entry_bytes }
    ensures { result ≡ entry_at t.now n }
{
    if usize::from(n) < Table::UPDATES {
        return load(bytes_of(t, n));
    }
    Entry {
        kind: Kind::Time,
        client: 0,
        bib: 0,
        v: 0,
    }
}
