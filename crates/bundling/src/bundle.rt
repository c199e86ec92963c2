// A bundle (02, U4) on bytes that are a table, which may have so many updates at most (U12): updates of one client on one revision, then its yield.
// All that can refuse is known before the first write.
// The call, with its board, stands above (crate announcing).
ghost use Rattle.std.specs.Prelude.{true, ◌≡◌, ◌*◌, ◌<◌, ◌≤◌, length};
ghost use Rattle.cells.specs.Range.{in_range};
ghost use Rattle.cells.specs.Sizes.{updates};
ghost use Rattle.bundles.specs.Records.{entry_in};
ghost use Rattle.bundles.specs.Packed.{held};
ghost use Rattle.updating.specs.Checks.{update_check};
ghost use Rattle.table.specs.Halves.{cells_of, is_table, low};
ghost use Rattle.table.specs.Out.{table_bytes};
ghost use Rattle.table.specs.Told.{left};
ghost use Rattle.table.specs.Calls.{bundled};
ghost use Rattle.table.specs.Shared.{above, sent_shared};
ghost use Rattle.bundling.specs.Bundles.{Going, entered, entered_all, entry_check, fit_check, sent_check};

use bundles::entry::Entry;
use bundles::record::entry_in;
use bundles::sizes::Record;
use checks::log::LogCheck;
use sizes::numbers::{Client, Revision};
use sizes::table::Table;
use table::bib::{BibCheck, check_bib};
use table::counts;
use table::refusal::Refusal;
use updates::kind::Kind;
use updating::room::check_room;
use updating::update::{check_update, put};
use updating::yields::close;

// 5 of an entry.
#[tactic(auto, unfolding(crate::specs::Bundles::entry_check, table::specs::Found::on_ok, table::specs::Checks::bib_check))]
fn check_entry(kind: u8, bib: u16) -> Result<Kind, Refusal>
    ensures { result ≡ entry_check kind bib }
{
    let BibCheck::Known = check_bib(bib) else {
        return Err(Refusal::BadEntry);
    };
    let Ok(k) = Kind::try_from(kind) else {
        return Err(Refusal::BadEntry);
    };
    Ok(k)
}

// 5, 9 and 20 of an entry, with so many updates taken, of so many at most.
#[tactic(auto, unfolding(crate::specs::Bundles::fit_check, table::specs::Found::on_ok, updating::specs::Checks::room_check))]
fn check_fit(kind: u8, bib: u16, taken: usize, most: usize) -> Result<(), Refusal>
    ensures { result ≡ fit_check kind bib taken most }
{
    check_entry(kind, bib)?;
    let LogCheck::Room = check_room(taken, Table::UPDATES) else {
        return Err(Refusal::LogFull);
    };
    let LogCheck::Room = check_room(taken, most) else {
        return Err(Refusal::CardFull);
    };
    Ok(())
}

// The earliest refusal of the updates. The yield behind them is taken.
#[tactic(auto, using(crate::proofs::Records::check_goes_on, crate::proofs::Records::check_last))]
fn check_sent(records: &[[u8; Record::BYTES]], taken: usize, most: usize) -> Result<(), Refusal>
    requires { (length records.now ≤ 64) × (taken ≤ updates) }
    ensures { result ≡ sent_check (held records.now) taken most }
{
    for (i, p) in records.iter().enumerate() {
        let e = entry_in(p);
        check_fit(e.kind, e.bib, taken + i, most)?;
    }
    Ok(())
}

// An entry that the checks have passed.
#[tactic(auto, unfolding(crate::specs::Bundles::entered, table::specs::Found::on_ok))]
fn enter(t: &mut [u8], c: Client, r: Revision, e: Entry)
    requires { Going t.old c.0 r.0 × ((cells_of t.old).updates < updates) × (e.bib < 1000) }
    ensures { t.new ≡ entered t.old c.0 r.0 e }
{
    let Ok(k) = Kind::try_from(e.kind) else {
        return;
    };
    put(t, c, r, k, e.bib, e.v);
}

// The entries, each as `enter` does it. What fits beside other courses fits alone (`fits-alone`, proofs/Records.antt).
#[tactic(auto, using(crate::proofs::Records::entered_none))]
fn enter_all(t: &mut [u8], c: Client, r: Revision, records: &[[u8; Record::BYTES]])
    requires { Going t.old c.0 r.0 × (sent_check (held records.now) (cells_of t.old).updates updates ≡ Ok tt) }
    ensures { t.new ≡ entered_all t.old c.0 r.0 (held records.now) }
{
    for p in records {
        enter(t, c, r, entry_in(p));
    }
}

// The updates and the yield, where the client may have its next event on the revision.
fn send(
    t: &mut [u8],
    most: usize,
    c: Client,
    r: Revision,
    records: &[[u8; Record::BYTES]],
) -> Result<u32, Refusal>
    requires { Going t.old c.0 r.0 × (length t.old ≡ table_bytes) × (length records.now ≤ 64) }
    ensures { left result t.new ≡ bundled t.old (sent_shared (above most) t.old c.0 r.0 (held records.now)) }
{
    let taken = counts::taken(t);
    check_sent(records, taken, most)?;
    enter_all(t, c, r, records);
    close(t, c);
    Ok(taken as u32)
}

// The checks of the first update, but 20.
fn check_first(
    t: &[u8],
    client: u8,
    revision: u8,
    p: &[u8; Record::BYTES],
) -> Result<(Client, Revision, Kind), Refusal>
    requires { length t.now ≡ table_bytes }
    ensures { result ≡ update_check (low t.now) client revision (entry_in p.now).kind (entry_in p.now).bib }
{
    let e = entry_in(p);
    check_update(t, client, revision, e.kind, e.bib)
}

// The call on bytes that are a table, a bundle's records, and a board of the right length. The first update has all its checks; the others go on from it.
pub fn bundle_sound(
    t: &mut [u8],
    most: usize,
    client: u8,
    revision: u8,
    records: &[[u8; Record::BYTES]],
) -> Result<u32, Refusal>
    requires { (is_table t.old ≡ true) × (length t.old ≡ table_bytes) × (in_range (low t.old) ≡ true) × (0 < length records.now) × (length records.now ≤ 64) }
    ensures { left result t.new ≡ bundled t.old (sent_shared (above most) t.old client revision (held records.now)) }
{
    let (c, r, _) = check_first(t, client, revision, &records[0])?;
    send(t, most, c, r, records)
}
