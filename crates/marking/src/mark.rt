// The call mark (02, U9): a revision forks another, which bears a name; its number is the value.
ghost use Rattle.std.specs.Prelude.{◌≡◌, true, ◌++◌, ◌<◌, length};
ghost use Rattle.cells.specs.Sizes as Lower;
ghost use Rattle.cells.specs.Sizes.{revisions};
ghost use Rattle.cells.specs.Range.{in_range};
ghost use Rattle.cells.specs.Steps.{mark_bytes};
ghost use Rattle.table.specs.Halves.{high, is_table, low};
ghost use Rattle.table.specs.Out.{table_bytes};
ghost use Rattle.table.specs.Told.{left};
ghost use Rattle.table.specs.Calls.{mark_out};
ghost use Rattle.marking.specs.Checks.{mark_check, MarkIn};

use checks::busy::{UseCheck, check_use};
use checks::given::check_given;
use checks::joined::{JoinedCheck, check_joined};
use checks::line::{LineCheck, check_line_of_mark};
use checks::name::{NameCheck, check_name};
use checks::next::check_next;
use sizes::numbers::Revision;
use sizes::table::Table;
use table::refusal::Refusal;
use table::sound;
use table::sound::TableCheck;

// p forks c, a number that is not the main revision's, and c bears the name.
fn start_marked(t: &mut [u8], p: Revision, c: Revision, name: &[u8])
    requires { (length t.old ≡ table_bytes) × (in_range (low t.old) ≡ true) × (p.0 < revisions) × (0 < c.0) × (c.0 < revisions) × (length name.now ≡ 4) }
    ensures { t.new ≡ mark_bytes (low t.old) p.0 c.0 name.now ++ high t.old }
{
    revisions::mark::mark(&mut t[0..Table::LOWER], p, c, name);
}

// Checks 3, 4, 15, 7, 10, 17: the revision, and the number of the new one.
#[tactic(auto, using(forking::proofs::Checks::next, crate::proofs::Checks::name_long), unfolding(crate::specs::Checks::mark_check, table::specs::Found::on_some, checks::specs::Answers::given_check, checks::specs::Answers::joined_check, checks::specs::Answers::mark_line_check, checks::specs::Answers::use_check, checks::specs::Answers::name_check))]
fn check_mark(d: &[u8], revision: u8, name: &[u8]) -> Result<(Revision, Revision), Refusal>
    requires { (length d.now ≡ Lower.lower_bytes) × (in_range d.now ≡ true) }
    ensures { (result ≡ mark_check d.now revision name.now) × MarkIn name.now result }
{
    let Some(p) = check_given(d, revision) else {
        return Err(Refusal::NeverSent);
    };
    let JoinedCheck::Out = check_joined(d, p) else {
        return Err(Refusal::Joined);
    };
    let LineCheck::On = check_line_of_mark(d) else {
        return Err(Refusal::OffTheLine);
    };
    let UseCheck::Free = check_use(d, p) else {
        return Err(Refusal::Busy);
    };
    let Some(c) = check_next(d) else {
        return Err(Refusal::NoneLeft);
    };
    let NameCheck::Fit = check_name(d, name) else {
        return Err(Refusal::BadName);
    };
    Ok((p, c))
}

// The call on bytes that are a table.
fn mark_sound(t: &mut [u8], revision: u8, name: &[u8]) -> Result<u32, Refusal>
    requires { (is_table t.old ≡ true) × (length t.old ≡ table_bytes) × (in_range (low t.old) ≡ true) }
    ensures { left result t.new ≡ mark_out t.old revision name.now }
{
    let (p, c) = check_mark(&t[0..Table::LOWER], revision, name)?;
    start_marked(t, p, c, name);
    Ok(u32::from(c.0))
}

#[tactic(auto, unfolding(table::specs::Calls::mark_out, table::specs::Checks::table_check, table::specs::Halves::is_table))]
pub fn mark(t: &mut [u8], revision: u8, name: &[u8]) -> Result<u32, Refusal>
    ensures { left result t.new ≡ mark_out t.old revision name.now }
{
    let TableCheck::Sound = sound::check_table(t) else {
        return Err(Refusal::NoTable);
    };
    mark_sound(t, revision, name)
}
