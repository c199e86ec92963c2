// The call update: an update of a bib at a revision, of a table alone or of one that shares its log (02, U12).
ghost use Rattle.std.specs.Prelude.{true, ◌++◌, ◌≡◌, ◌<◌, length};
ghost use Rattle.cells.specs.Sizes as Lower;
ghost use Rattle.cells.specs.Sizes.{clients, revisions, updates};
ghost use Rattle.cells.specs.Range.{in_range};
ghost use Rattle.cells.specs.Steps.{update_bytes};
ghost use Rattle.entries.specs.Sizes.{bib_range};
ghost use Rattle.entries.specs.Stored.{entry};
ghost use Rattle.entries.specs.Entries.{wrote};
ghost use Rattle.table.specs.Halves.{cells_of, high, is_table, low};
ghost use Rattle.table.specs.Out.{table_bytes};
ghost use Rattle.table.specs.Told.{left};
ghost use Rattle.table.specs.Calls.{update_out};
ghost use Rattle.table.specs.Shared.{above, update_shared};
ghost use Rattle.updating.specs.Checks.{update_check, UpdateIn};

use crate::room::check_room;
use checks::busy::{UseCheck, check_use_by_other};
use checks::client::check_client;
use checks::given::check_given;
use checks::joined::{JoinedCheck, check_joined};
use checks::log::{LogCheck, check_log};
use checks::marked::{MarkedCheck, check_marked};
use checks::open::{OpenCheck, check_open};
use checks::stale::{StaleCheck, check_stale};
use sizes::numbers::{Client, Revision};
use sizes::table::Table;
use table::bib::{BibCheck, check_bib};
use table::refusal::Refusal;
use table::sound::TableCheck;
use table::{counts, sound};
use updates::kind::Kind;

// Checks 2 to 9, and 16 after 4, on the lower half.
#[tactic(auto, unfolding(crate::specs::Checks::update_check, table::specs::Found::on_some, table::specs::Found::on_ok, table::specs::Checks::bib_check, updates::specs::Kinds::kind_check, checks::specs::Answers::client_check, checks::specs::Answers::given_check, checks::specs::Answers::joined_check, checks::specs::Answers::marked_check, checks::specs::Answers::open_check, checks::specs::Answers::other_use_check, checks::specs::Answers::stale_check, checks::specs::Answers::log_check))]
fn check_lower(
    d: &[u8],
    client: u8,
    revision: u8,
    kind: u8,
    bib: u16,
) -> Result<(Client, Revision, Kind), Refusal>
    requires { length d.now ≡ Lower.lower_bytes }
    ensures { (result ≡ update_check d.now client revision kind bib) × UpdateIn d.now bib result }
{
    let Some(c) = check_client(client) else {
        return Err(Refusal::StrangeClient);
    };
    let Some(r) = check_given(d, revision) else {
        return Err(Refusal::NeverSent);
    };
    let JoinedCheck::Out = check_joined(d, r) else {
        return Err(Refusal::Joined);
    };
    let MarkedCheck::Unmarked = check_marked(d, r) else {
        return Err(Refusal::Marked);
    };
    let BibCheck::Known = check_bib(bib) else {
        return Err(Refusal::BadEntry);
    };
    let Ok(k) = Kind::try_from(kind) else {
        return Err(Refusal::BadEntry);
    };
    let OpenCheck::Clear = check_open(d, c, r) else {
        return Err(Refusal::OpenElsewhere);
    };
    let UseCheck::Free = check_use_by_other(d, c, r) else {
        return Err(Refusal::Busy);
    };
    let StaleCheck::CaughtUp = check_stale(d, c, r) else {
        return Err(Refusal::NotCaughtUp);
    };
    let LogCheck::Room = check_log(d) else {
        return Err(Refusal::LogFull);
    };
    Ok((c, r, k))
}

// The same of a whole table.
#[tactic(auto, unfolding(table::specs::Halves::low))]
pub fn check_update(
    t: &[u8],
    client: u8,
    revision: u8,
    kind: u8,
    bib: u16,
) -> Result<(Client, Revision, Kind), Refusal>
    requires { length t.now ≡ table_bytes }
    ensures { (result ≡ update_check (low t.now) client revision kind bib) × UpdateIn (low t.now) bib result }
{
    check_lower(&t[0..Table::LOWER], client, revision, kind, bib)
}

// The update is r's last event; its number is the answer.
fn append(t: &mut [u8], c: Client, r: Revision) -> usize
    requires { (length t.old ≡ table_bytes) × (in_range (low t.old) ≡ true) × (c.0 < clients) × (r.0 < revisions) × ((cells_of t.old).updates < updates) }
    ensures { (result ≡ (cells_of t.old).updates) × (t.new ≡ update_bytes (low t.old) c.0 r.0 ++ high t.old) }
{
    events::record::update(&mut t[0..Table::LOWER], c, r)
}

// Entry n is stored.
fn store(t: &mut [u8], n: usize, kind: Kind, c: Client, bib: u16, v: u32)
    requires { (length t.old ≡ table_bytes) × (n < updates) × (c.0 < clients) × (bib < bib_range) }
    ensures { t.new ≡ low t.old ++ wrote (high t.old) n (entry kind c.0 bib v) }
{
    entries::write::write(
        &mut t[Table::LOWER..Table::BYTES],
        n as u16,
        kind,
        c,
        bib,
        v,
    );
}

// Both, for the update that the checks allow.
pub fn put(t: &mut [u8], c: Client, r: Revision, kind: Kind, bib: u16, v: u32) -> u32
    requires { (length t.old ≡ table_bytes) × (in_range (low t.old) ≡ true) × (c.0 < clients) × (r.0 < revisions) × ((cells_of t.old).updates < updates) × (bib < bib_range) }
    ensures { (result ≡ (cells_of t.old).updates) × (t.new ≡ update_bytes (low t.old) c.0 r.0 ++ wrote (high t.old) (cells_of t.old).updates (entry kind c.0 bib v)) }
{
    let u = append(t, c, r);
    store(t, u, kind, c, bib, v);
    u as u32
}

// The call on bytes that are a table, which may have so many updates at most. 20 comes after all else.
fn update_sound(
    t: &mut [u8],
    most: usize,
    client: u8,
    revision: u8,
    kind: u8,
    bib: u16,
    v: u32,
) -> Result<u32, Refusal>
    requires { (is_table t.old ≡ true) × (length t.old ≡ table_bytes) × (in_range (low t.old) ≡ true) }
    ensures { left result t.new ≡ update_shared (above most) t.old client revision kind bib v }
{
    let (c, r, k) = check_update(t, client, revision, kind, bib)?;
    let taken = counts::taken(t);
    let LogCheck::Room = check_room(taken, most) else {
        return Err(Refusal::CardFull);
    };
    let value = put(t, c, r, k, bib, v);
    Ok(value)
}

// The call on a table that may have so many updates at most.
pub fn update_within(
    t: &mut [u8],
    most: usize,
    client: u8,
    revision: u8,
    kind: u8,
    bib: u16,
    v: u32,
) -> Result<u32, Refusal>
    ensures { left result t.new ≡ update_shared (above most) t.old client revision kind bib v }
{
    let TableCheck::Sound = sound::check_table(t) else {
        return Err(Refusal::NoTable);
    };
    update_sound(t, most, client, revision, kind, bib, v)
}

// The call on a table alone.
pub fn update(
    t: &mut [u8],
    client: u8,
    revision: u8,
    kind: u8,
    bib: u16,
    v: u32,
) -> Result<u32, Refusal>
    ensures { left result t.new ≡ update_out t.old client revision kind bib v }
{
    update_within(t, Table::UPDATES, client, revision, kind, bib, v)
}
