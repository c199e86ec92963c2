// The call bundle on a lent list of entries (02, U4): "first as 12-byte records, then as a lent list of entries".
ghost use Rattle.std.specs.Prelude.{◌≡◌, length, take};
ghost use Rattle.bundles.specs.Packed.{among, records_in};
ghost use Rattle.table.specs.Told.{left};
ghost use Rattle.table.specs.Calls.{board_out, bundle_out, entries_out};

use announcing::bundle::bundle;
use bundles::entry::Entry;
use bundles::pack::{Packed, pack};
use bundles::sizes::{Bundle, Record};
use table::refusal::Refusal;

// How many entries are passed on. Of more than 64 none is: a bundle of no entries has code 14 too.
fn among(count: usize) -> usize
    ensures { result ≡ among count }
{
    if Bundle::MOST < count { 0 } else { count }
}

// The call on entries that are put as records.
pub fn bundle_packed(
    t: &mut [u8],
    board: &mut [u8],
    client: u8,
    revision: u8,
    p: Packed,
) -> Result<u32, Refusal>
    ensures { (left result t.new ≡ bundle_out t.old client revision (records_in p) (length board.old)) × (board.new ≡ board_out t.old t.new board.old) }
{
    let end = Record::BYTES * among(p.count);
    bundle(t, board, client, revision, &p.bytes[..end])
}

// The call on a lent list of entries. It is the bundle of their records (`records_are`, proofs/Packed.antt).
pub fn bundle_of(
    t: &mut [u8],
    board: &mut [u8],
    client: u8,
    revision: u8,
    es: &[Entry],
) -> Result<u32, Refusal>
    ensures { (left result t.new ≡ entries_out t.old client revision es.now (length board.old)) × (board.new ≡ board_out t.old t.new board.old) }
{
    bundle_packed(t, board, client, revision, pack(es))
}

// The same for a caller that lends no entries: the first `count` of 64. Of a count above 64 it is 14, after 1 (`too_many`, proofs/Packed.antt).
pub fn bundle_entries(
    t: &mut [u8],
    board: &mut [u8],
    client: u8,
    revision: u8,
    entries: [Entry; Bundle::MOST],
    count: usize,
) -> Result<u32, Refusal>
    ensures { (left result t.new ≡ entries_out t.old client revision (take (among count) entries) (length board.old)) × (board.new ≡ board_out t.old t.new board.old) }
{
    let n = among(count);
    bundle_of(t, board, client, revision, &entries[..n])
}
