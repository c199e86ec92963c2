// The call verify (02, U13): whether an order of updates from another maker fits the table. Table and file are only read.
ghost use Rattle.std.specs.Prelude.{not, true, ◌≡◌, ◌<◌, length, replicate};
ghost use Rattle.cells.specs.Sizes.{revisions, updates};
ghost use Rattle.cells.specs.Order.{order};
ghost use Rattle.cells.specs.Range.{in_range};
ghost use Rattle.orderfile.specs.File.{numbers_of};
ghost use Rattle.orderfile.specs.Test.{in_order, rises, wrong};
ghost use Rattle.orderfile.specs.Checks.{place_at};
ghost use Rattle.table.specs.Halves.{cells_of, is_table, low};
ghost use Rattle.table.specs.Out.{table_bytes};
ghost use Rattle.table.specs.Calls.{fits_table, is_out, verify_out};
ghost use Rattle.table.specs.Told.{verdict_told};

use checks::given::check_given;
use checks::joined::{JoinedCheck, check_joined};
use orderfile::file::check_list;
use orderfile::places::{count, place_all};
use orderfile::rising::rise;
use sizes::numbers::Revision;
use sizes::table::Table;
use table::refusal::Refusal;
use table::sound::TableCheck;
use table::visible::visible;
use table::{counts, sound};

// No update has a place yet.
fn no_places() -> [u16; Table::UPDATES]
    ensures { result ≡ replicate updates 0 }
{
    [0; Table::UPDATES]
}

// Whether the updates visible at r stand in order. `list` is room for them.
fn in_order(t: &[u8], r: Revision, places: &[u16], list: &mut [u16]) -> bool
    requires { (length t.now ≡ table_bytes) × (in_range (low t.now) ≡ true) × (r.0 < revisions) × (length list.old ≡ updates) }
    ensures { result ≡ rises (place_at places.now) 0 (order (cells_of t.now) r.0) }
{
    let m = visible(t, r, list);
    rise(places, &list[..m])
}

// Of number n, if a revision that is out bears it, busy or not.
#[tactic(auto, unfolding(checks::specs::Answers::given_check, checks::specs::Answers::joined_check, table::specs::Halves::low))]
fn stands(t: &[u8], n: u8, places: &[u16], list: &mut [u16]) -> bool
    requires { (length t.now ≡ table_bytes) × (in_range (low t.now) ≡ true) × (length list.old ≡ updates) }
    ensures { result ≡ not (wrong (is_out (cells_of t.now)) (order (cells_of t.now)) (place_at places.now) n) }
{
    let Some(r) = check_given(&t[0..Table::LOWER], n) else {
        return true;
    };
    let JoinedCheck::Out = check_joined(&t[0..Table::LOWER], r) else {
        return true;
    };
    in_order(t, r, places, list)
}

// Of every number.
fn all_stand(t: &[u8], places: &[u16]) -> bool
    requires { (length t.now ≡ table_bytes) × (in_range (low t.now) ≡ true) }
    ensures { result ≡ in_order revisions (is_out (cells_of t.now)) (order (cells_of t.now)) (place_at places.now) }
{
    let mut list = order::links::room();
    for n in 0..Table::REVISIONS as u8 {
        if !stands(t, n, places, &mut list) {
            return false;
        }
    }
    true
}

// As many numbers as updates were taken: each once and no other, and every revision that is out in order.
fn fits_as_many(t: &[u8], numbers: &[u8], taken: usize) -> bool
    requires { (length t.now ≡ table_bytes) × (in_range (low t.now) ≡ true) × (length (numbers_of numbers.now) ≡ taken) × (taken ≡ (cells_of t.now).updates) }
    ensures { result ≡ fits_table (cells_of t.now) (numbers_of numbers.now) }
{
    let mut places = no_places();
    if !place_all(numbers, taken, &mut places) {
        return false;
    }
    all_stand(t, &places)
}

// The numbers of a file, on a table. Another count ends it before anything is made.
fn fits(t: &[u8], numbers: &[u8]) -> bool
    requires { (length t.now ≡ table_bytes) × (in_range (low t.now) ≡ true) }
    ensures { result ≡ fits_table (cells_of t.now) (numbers_of numbers.now) }
{
    let taken = counts::taken(t);
    if count(numbers) != taken {
        return false;
    }
    fits_as_many(t, numbers, taken)
}

// The call on bytes that are a table.
#[tactic(auto, unfolding(table::specs::Calls::verify_out, orderfile::specs::Checks::list_check, orderfile::specs::File::numbers_in))]
fn verify_sound(t: &[u8], file: &[u8]) -> Result<bool, Refusal>
    requires { (is_table t.now ≡ true) × (length t.now ≡ table_bytes) × (in_range (low t.now) ≡ true) }
    ensures { verdict_told result ≡ verify_out t.now file.now }
{
    let Some(from) = check_list(file) else {
        return Err(Refusal::BadList);
    };
    Ok(fits(t, &file[from..]))
}

pub fn verify(t: &[u8], file: &[u8]) -> Result<bool, Refusal>
    ensures { verdict_told result ≡ verify_out t.now file.now }
{
    let TableCheck::Sound = sound::check_table(t) else {
        return Err(Refusal::NoTable);
    };
    verify_sound(t, file)
}
