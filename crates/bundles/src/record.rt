// A record of a bundle read as an entry, and an entry put as a record.
ghost use Rattle.std.specs.Prelude.{◌≡◌, ◌*◌, ◌+◌, ◌≤◌, length};
ghost use Rattle.bundles.specs.Records.{entry_in, laid};
ghost use Rattle.bundles.specs.Packed.{with_record};

use crate::entry::Entry;
use crate::sizes::Record;
use buffers::numbers::read;

// The record's client and number are not looked at.
pub fn entry_in(p: &[u8; Record::BYTES]) -> Entry
    ensures { result ≡ entry_in p.now }
{
    let bib = read(&p[2..4]) as u16;
    let v = read(&p[4..8]) as u32;
    Entry { kind: p[0], bib, v }
}

// A record's twelve bytes. A line of the listing is laid out so too.
pub fn write(p: &mut [u8], kind: u8, client: u8, bib: u16, v: u32, number: u32)
    requires { length p.old ≡ 12 }
    ensures { p.new ≡ laid kind client bib v number }
{
    let [b0, b1] = bib.to_le_bytes();
    let [v0, v1, v2, v3] = v.to_le_bytes();
    let [n0, n1, n2, n3] = number.to_le_bytes();
    p.copy_from_slice(&[kind, client, b0, b1, v0, v1, v2, v3, n0, n1, n2, n3]);
}

// Record i becomes the entry's; the other bytes stay.
#[tactic(auto, unfolding(crate::specs::Packed::record_of))]
pub fn put(b: &mut [u8], i: usize, e: Entry)
    requires { 12 * i + 12 ≤ length b.old }
    ensures { b.new ≡ with_record b.old i e }
{
    let at = Record::BYTES * i;
    let end = at + Record::BYTES;
    write(&mut b[at..end], e.kind, 0, e.bib, e.v, 0);
}
