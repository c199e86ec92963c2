// A lent list of entries put as records, so that all else is said of a bundle's bytes.
ghost use Rattle.std.specs.Prelude.{◌≡◌};
ghost use Rattle.bundles.specs.Packed.{packed_of};

use crate::entry::Entry;
use crate::record::put;
use crate::sizes::Bundle;

// Room for 64 records, and the count of entries, which may be above 64.
#[derive(Drop)]
pub struct Packed {
    pub bytes: [u8; Bundle::BYTES],
    pub count: usize,
}

// The first 64 entries as records: of more the count alone is needed.
pub fn pack(es: &[Entry]) -> Packed
    ensures { result ≡ packed_of es.now }
{
    let n = es.len().min(Bundle::MOST);
    let mut bytes = [0; Bundle::BYTES];
    for (i, e) in es[..n].iter().enumerate() {
        put(&mut bytes, i, *e);
    }
    Packed {
        bytes,
        count: es.len(),
    }
}
