// The call query: a bib's state and value at a revision.
ghost use Rattle.std.specs.Prelude.{true, ◌++◌, ◌≡◌, ◌<◌, length};
ghost use Rattle.cells.specs.Sizes as Lower;
ghost use Rattle.cells.specs.Sizes.{clients, revisions};
ghost use Rattle.cells.specs.Range.{in_range};
ghost use Rattle.cells.specs.Steps.{query_bytes};
ghost use Rattle.table.specs.Halves.{high, is_table, low};
ghost use Rattle.table.specs.Out.{table_bytes};
ghost use Rattle.table.specs.Told.{left_read};
ghost use Rattle.table.specs.Calls.{query_out};
ghost use Rattle.table.specs.Checks.{EventIn};
ghost use Rattle.querying.specs.Checks.{query_check};

use crate::standing::{standing_at, tell};
use checks::busy::{UseCheck, check_use_by_other};
use checks::client::check_client;
use checks::given::check_given;
use checks::joined::{JoinedCheck, check_joined};
use checks::marked::{MarkedCheck, check_marked};
use checks::open::{OpenCheck, check_open};
use checks::stale::{StaleCheck, check_stale};
use sizes::numbers::{Client, Revision};
use sizes::table::Table;
use table::answer::Reading;
use table::bib::{BibCheck, check_bib};
use table::refusal::Refusal;
use table::sound::{TableCheck, check_table};

// The query is r's last event, and opens or continues its client's transaction.
#[tactic(auto, unfolding(table::specs::Halves::low, table::specs::Halves::high))]
fn record(t: &mut [u8], c: Client, r: Revision)
    requires { (length t.old ≡ table_bytes) × (c.0 < clients) × (r.0 < revisions) }
    ensures { t.new ≡ query_bytes (low t.old) c.0 r.0 ++ high t.old }
{
    events::record::query(&mut t[0..Table::LOWER], c, r);
}

// Checks 2 to 8, and 16 after 4, on the lower half.
#[tactic(auto, unfolding(crate::specs::Checks::query_check, table::specs::Found::on_some, table::specs::Checks::bib_check, checks::specs::Answers::client_check, checks::specs::Answers::given_check, checks::specs::Answers::joined_check, checks::specs::Answers::marked_check, checks::specs::Answers::open_check, checks::specs::Answers::other_use_check, checks::specs::Answers::stale_check))]
fn check_lower(d: &[u8], client: u8, revision: u8, bib: u16) -> Result<(Client, Revision), Refusal>
    requires { length d.now ≡ Lower.lower_bytes }
    ensures { (result ≡ query_check d.now client revision bib) × EventIn result }
{
    let Some(c) = check_client(client) else {
        return Err(Refusal::StrangeClient);
    };
    let Some(r) = check_given(d, revision) else {
        return Err(Refusal::NeverSent);
    };
    let JoinedCheck::Out = check_joined(d, r) else {
        return Err(Refusal::Joined);
    };
    let MarkedCheck::Unmarked = check_marked(d, r) else {
        return Err(Refusal::Marked);
    };
    let BibCheck::Known = check_bib(bib) else {
        return Err(Refusal::BadEntry);
    };
    let OpenCheck::Clear = check_open(d, c, r) else {
        return Err(Refusal::OpenElsewhere);
    };
    let UseCheck::Free = check_use_by_other(d, c, r) else {
        return Err(Refusal::Busy);
    };
    let StaleCheck::CaughtUp = check_stale(d, c, r) else {
        return Err(Refusal::NotCaughtUp);
    };
    Ok((c, r))
}

// The same of a whole table.
#[tactic(auto, unfolding(table::specs::Halves::low))]
fn check_query(t: &[u8], client: u8, revision: u8, bib: u16) -> Result<(Client, Revision), Refusal>
    requires { length t.now ≡ table_bytes }
    ensures { (result ≡ query_check (low t.now) client revision bib) × EventIn result }
{
    check_lower(&t[0..Table::LOWER], client, revision, bib)
}

// The call on bytes that are a table.
fn query_sound(t: &mut [u8], client: u8, revision: u8, bib: u16) -> Result<Reading, Refusal>
    requires { (is_table t.old ≡ true) × (length t.old ≡ table_bytes) × (in_range (low t.old) ≡ true) }
    ensures { left_read result t.new ≡ query_out t.old client revision bib }
{
    let (c, r) = check_query(t, client, revision, bib)?;
    let standing = standing_at(t, r, bib);
    record(t, c, r);
    Ok(tell(standing))
}

pub fn query(t: &mut [u8], client: u8, revision: u8, bib: u16) -> Result<Reading, Refusal>
    ensures { left_read result t.new ≡ query_out t.old client revision bib }
{
    let TableCheck::Sound = check_table(t) else {
        return Err(Refusal::NoTable);
    };
    query_sound(t, client, revision, bib)
}
