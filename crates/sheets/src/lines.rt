// The lines of some numbers put into a sheet, in their order.
ghost use Rattle.std.specs.Prelude.{◌≡◌, ◌*◌, ◌+◌, ◌≤◌, length};
ghost use Rattle.lists.specs.Arranged.{replaced};
ghost use Rattle.entries.specs.Sizes.{entry_bytes};
ghost use Rattle.entries.specs.Entries.{entry_at};
ghost use Rattle.sheets.specs.Lines.{line};
ghost use Rattle.sheets.specs.Sheet.{sheet};

use bundles::record::write;
use bundles::sizes::Record;

// Line i is of update n.
fn put(t: &[u8], n: u16, s: &mut [u8], i: usize)
    requires { (length t.now ≡ entry_bytes) × (12 * i + 12 ≤ length s.old) }
    ensures { s.new ≡ replaced s.old (12 * i) 12 (line (entry_at t.now n) n) }
{
    let e = entries::read::read(t, n);
    let at = Record::BYTES * i;
    write(
        &mut s[at..at + Record::BYTES],
        u8::from(e.kind),
        e.client,
        e.bib,
        e.v,
        u32::from(n),
    );
}

// The lines of the numbers in `order`; the other bytes stay.
pub fn lines(t: &[u8], order: &[u16], s: &mut [u8])
    requires { (length t.now ≡ entry_bytes) × (12 * length order.now ≤ length s.old) }
    ensures { s.new ≡ sheet (entry_at t.now) order.now s.old }
{
    for (i, n) in order.iter().enumerate() {
        put(t, *n, s, i);
    }
}
