// The call list: the updates visible at a revision, in listed order, into a lent sheet. The table is only read.
ghost use Rattle.std.specs.Prelude.{true, ◌≡◌, ◌*◌, ◌<◌, ◌≤◌, ltb, length, take};
ghost use Rattle.cells.specs.Sizes.{revisions, updates};
ghost use Rattle.cells.specs.Range.{in_range};
ghost use Rattle.entries.specs.Entries.{entry_at};
ghost use Rattle.sheets.specs.Sheet as Sheet;
ghost use Rattle.table.specs.Halves.{high, is_table, low};
ghost use Rattle.table.specs.Out.{table_bytes};
ghost use Rattle.table.specs.Answers.{taken};
ghost use Rattle.table.specs.Told.{left};
ghost use Rattle.table.specs.Calls.{list_out};
ghost use Rattle.table.specs.Found.{check, shown_out};
ghost use Rattle.listing.specs.Checks.{sheet_check};

use bundles::sizes::Record;
use sizes::numbers::Revision;
use sizes::table::Table;
use table::refusal::Refusal;
use table::sound::TableCheck;
use table::visible::visible;
use table::{idle, sound};

// Code 12.
#[derive(Drop)]
pub enum SheetCheck {
    Fits,
    Short,
}

// n lines of 12 bytes.
#[tactic(auto, unfolding(crate::specs::Checks::sheet_check))]
fn check_sheet(sheet: &[u8], n: usize) -> SheetCheck
    requires { n ≤ updates }
    ensures { result ≡ sheet_check (length sheet.now) n }
{
    if sheet.len() < Record::BYTES * n {
        SheetCheck::Short
    } else {
        SheetCheck::Fits
    }
}

// The lines of the numbers in `order`, if the sheet has room for them.
#[tactic(auto, unfolding(crate::specs::Checks::sheet_check))]
fn put(t: &[u8], order: &[u16], sheet: &mut [u8]) -> Result<u32, Refusal>
    requires { (length t.now ≡ table_bytes) × (length order.now ≤ updates) }
    ensures { left result sheet.new ≡ check (ltb (length sheet.old) (12 * length order.now)) 12 sheet.old (taken (Sheet.sheet (entry_at (high t.now)) order.now sheet.old) (length order.now)) }
{
    let n = order.len();
    let SheetCheck::Fits = check_sheet(sheet, n) else {
        return Err(Refusal::SheetShort);
    };
    sheets::lines::lines(&t[Table::LOWER..Table::BYTES], order, sheet);
    Ok(n as u32)
}

// What is visible at r, if the sheet has room for it.
fn show(t: &[u8], r: Revision, sheet: &mut [u8]) -> Result<u32, Refusal>
    requires { (length t.now ≡ table_bytes) × (in_range (low t.now) ≡ true) × (r.0 < revisions) }
    ensures { left result sheet.new ≡ shown_out t.now r.0 sheet.old }
{
    let mut out = order::links::room();
    let n = visible(t, r, &mut out);
    put(t, &out[..n], sheet)
}

// The call on bytes that are a table.
fn list_sound(t: &[u8], revision: u8, sheet: &mut [u8]) -> Result<u32, Refusal>
    requires { (is_table t.now ≡ true) × (length t.now ≡ table_bytes) × (in_range (low t.now) ≡ true) }
    ensures { left result sheet.new ≡ list_out t.now revision sheet.old }
{
    let r = idle::check_idle(&t[0..Table::LOWER], revision)?;
    show(t, r, sheet)
}

pub fn list(t: &[u8], revision: u8, sheet: &mut [u8]) -> Result<u32, Refusal>
    ensures { left result sheet.new ≡ list_out t.now revision sheet.old }
{
    let TableCheck::Sound = sound::check_table(t) else {
        return Err(Refusal::NoTable);
    };
    list_sound(t, revision, sheet)
}
