// The call preview (02, U6): "equal to joining on a copy of the table and reading there". The table is only read.
ghost use Rattle.std.specs.Prelude.{true, ◌++◌, ◌≡◌, ◌<◌, length};
ghost use Rattle.cells.specs.Sizes as Lower;
ghost use Rattle.cells.specs.Sizes.{revisions};
ghost use Rattle.cells.specs.Range.{in_range};
ghost use Rattle.cells.specs.Steps.{join_bytes};
ghost use Rattle.table.specs.Halves.{cells_of, high, is_table, low};
ghost use Rattle.table.specs.Out.{table_bytes};
ghost use Rattle.table.specs.Calls.{foreseen, preview_out, standing_at};
ghost use Rattle.table.specs.Told.{prospect_told};
ghost use Rattle.table.specs.Checks.{JoinIn};
ghost use Rattle.previewing.specs.Checks.{preview_check};

use buffers::put::copy;
use handing::join::join;
use querying::standing::{standing_on, tell};
use sizes::numbers::Revision;
use sizes::table::Table;
use table::answer::Prospect;
use table::bib::BibCheck;
use table::join::check_join;
use table::refusal::Refusal;
use table::sound::TableCheck;
use table::{bib, counts, sound};

// Room for a copy of the lower half.
fn room() -> [u8; Table::LOWER]
    ensures { Lower.lower_bytes ≡ length result }
{
    [0; Table::LOWER]
}

// The lower half of t into d, and there b joined into a.
fn join_copy(t: &[u8], d: &mut [u8], a: Revision, b: Revision)
    requires { (length t.now ≡ table_bytes) × (in_range (low t.now) ≡ true) × (length d.old ≡ Lower.lower_bytes) × (a.0 < revisions) × (b.0 < revisions) }
    ensures { d.new ≡ join_bytes (low t.now) a.0 b.0 }
{
    copy(d, &t[0..Table::LOWER]);
    join(d, a, b);
}

// A copy of t that has been joined, d its lower half, read at a.
fn read_on(d: &[u8], t: &[u8], a: Revision, bib: u16, gain: u16) -> Prospect
    requires { (length d.now ≡ Lower.lower_bytes) × (in_range d.now ≡ true) × (length t.now ≡ table_bytes) × (a.0 < revisions) }
    ensures { prospect_told (Ok result) ≡ foreseen (standing_at (d.now ++ high t.now) a.0 bib) gain }
{
    let standing = standing_on(d, &t[Table::LOWER..Table::BYTES], a, bib);
    let told = tell(standing);
    let state = told.state;
    Prospect {
        state,
        value: told.value,
        gain,
    }
}

// The end of a preview that the checks allow: b is joined into a on a copy.
fn foresee(t: &[u8], a: Revision, b: Revision, bib: u16) -> Prospect
    requires { (length t.now ≡ table_bytes) × (in_range (low t.now) ≡ true) × (a.0 < revisions) × (b.0 < revisions) × (0 < b.0) }
    ensures { prospect_told (Ok result) ≡ foreseen (standing_at (join_bytes (low t.now) a.0 b.0 ++ high t.now) a.0 bib) ((cells_of t.now).count b.0) }
{
    // what the join brings is b's own
    let gain = counts::own(t, b) as u16;
    let mut d = room();
    join_copy(t, &mut d, a, b);
    read_on(&d, t, a, bib, gain)
}

// The checks of the join, then 5.
#[tactic(auto, unfolding(crate::specs::Checks::preview_check, table::specs::Found::on_ok, table::specs::Checks::bib_check))]
fn check_preview(
    d: &[u8],
    joiner: u8,
    joinee: u8,
    bib: u16,
) -> Result<(Revision, Revision), Refusal>
    requires { length d.now ≡ Lower.lower_bytes }
    ensures { (result ≡ preview_check d.now joiner joinee bib) × JoinIn result }
{
    let (a, b) = check_join(d, joiner, joinee)?;
    let BibCheck::Known = bib::check_bib(bib) else {
        return Err(Refusal::BadEntry);
    };
    Ok((a, b))
}

// The call on bytes that are a table.
fn preview_sound(t: &[u8], joiner: u8, joinee: u8, bib: u16) -> Result<Prospect, Refusal>
    requires { (is_table t.now ≡ true) × (length t.now ≡ table_bytes) × (in_range (low t.now) ≡ true) }
    ensures { prospect_told result ≡ preview_out t.now joiner joinee bib }
{
    let (a, b) = check_preview(&t[0..Table::LOWER], joiner, joinee, bib)?;
    Ok(foresee(t, a, b, bib))
}

#[tactic(auto, unfolding(table::specs::Calls::preview_out, table::specs::Calls::join_out, table::specs::Checks::table_check, table::specs::Halves::is_table))]
pub fn preview(t: &[u8], joiner: u8, joinee: u8, bib: u16) -> Result<Prospect, Refusal>
    ensures { prospect_told result ≡ preview_out t.now joiner joinee bib }
{
    let TableCheck::Sound = sound::check_table(t) else {
        return Err(Refusal::NoTable);
    };
    preview_sound(t, joiner, joinee, bib)
}
