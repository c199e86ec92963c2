// The call fork: a revision forks another, whose number is the value.
ghost use Rattle.std.specs.Prelude.{◌≡◌, true, ◌++◌, ◌<◌, length};
ghost use Rattle.cells.specs.Sizes as Lower;
ghost use Rattle.cells.specs.Sizes.{revisions};
ghost use Rattle.cells.specs.Range.{in_range};
ghost use Rattle.cells.specs.Steps.{fork_bytes};
ghost use Rattle.table.specs.Halves.{high, is_table, low};
ghost use Rattle.table.specs.Out.{table_bytes};
ghost use Rattle.table.specs.Told.{left};
ghost use Rattle.table.specs.Calls.{fork_out};
ghost use Rattle.forking.specs.Checks.{fork_check, ForkIn};

use checks::busy::{UseCheck, check_use};
use checks::given::check_given;
use checks::joined::{JoinedCheck, check_joined};
use checks::line::{LineCheck, check_line};
use checks::next::check_next;
use sizes::numbers::Revision;
use sizes::table::Table;
use table::refusal::Refusal;
use table::sound;
use table::sound::TableCheck;

// p forks c, a number that is not the main revision's.
pub fn start(t: &mut [u8], p: Revision, c: Revision)
    requires { (length t.old ≡ table_bytes) × (in_range (low t.old) ≡ true) × (p.0 < revisions) × (0 < c.0) × (c.0 < revisions) }
    ensures { t.new ≡ fork_bytes (low t.old) p.0 c.0 ++ high t.old }
{
    revisions::fork::fork(&mut t[0..Table::LOWER], p, c);
}

// Checks 3, 4, 15, 7, 10: the revision, and the number of the new one.
#[tactic(auto, using(crate::proofs::Checks::next), unfolding(crate::specs::Checks::fork_check, table::specs::Found::on_some, checks::specs::Answers::given_check, checks::specs::Answers::joined_check, checks::specs::Answers::line_check, checks::specs::Answers::use_check))]
fn check_fork(d: &[u8], revision: u8) -> Result<(Revision, Revision), Refusal>
    requires { (length d.now ≡ Lower.lower_bytes) × (in_range d.now ≡ true) }
    ensures { (result ≡ fork_check d.now revision) × ForkIn result }
{
    let Some(p) = check_given(d, revision) else {
        return Err(Refusal::NeverSent);
    };
    let JoinedCheck::Out = check_joined(d, p) else {
        return Err(Refusal::Joined);
    };
    let LineCheck::On = check_line(d, p) else {
        return Err(Refusal::OffTheLine);
    };
    let UseCheck::Free = check_use(d, p) else {
        return Err(Refusal::Busy);
    };
    let Some(c) = check_next(d) else {
        return Err(Refusal::NoneLeft);
    };
    Ok((p, c))
}

// The call on bytes that are a table.
fn fork_sound(t: &mut [u8], revision: u8) -> Result<u32, Refusal>
    requires { (is_table t.old ≡ true) × (length t.old ≡ table_bytes) × (in_range (low t.old) ≡ true) }
    ensures { left result t.new ≡ fork_out t.old revision }
{
    let (p, c) = check_fork(&t[0..Table::LOWER], revision)?;
    start(t, p, c);
    Ok(u32::from(c.0))
}

#[tactic(auto, unfolding(table::specs::Calls::fork_out, table::specs::Checks::table_check, table::specs::Halves::is_table))]
pub fn fork(t: &mut [u8], revision: u8) -> Result<u32, Refusal>
    ensures { left result t.new ≡ fork_out t.old revision }
{
    let TableCheck::Sound = sound::check_table(t) else {
        return Err(Refusal::NoTable);
    };
    fork_sound(t, revision)
}
