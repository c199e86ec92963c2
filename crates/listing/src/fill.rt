// The call fill (02, U1): a revision's own updates, and those of the whole table. The table is only read.
ghost use Rattle.std.specs.Prelude.{◌≡◌, ◌<◌, length};
ghost use Rattle.cells.specs.Sizes as Lower;
ghost use Rattle.cells.specs.Sizes.{revisions};
ghost use Rattle.cells.specs.Decode.{cells};
ghost use Rattle.table.specs.Calls.{fill_out, told};
ghost use Rattle.table.specs.Found.{fill_in};
ghost use Rattle.table.specs.Told.{level_told};

use checks::given::check_given;
use checks::joined::{JoinedCheck, check_joined};
use fields::read;
use sizes::numbers::Revision;
use sizes::table::Table;
use table::answer::Level;
use table::refusal::Refusal;
use table::sound::{TableCheck, check_table};

fn tell(d: &[u8], r: Revision) -> Level
    requires { (length d.now ≡ Lower.lower_bytes) × (r.0 < revisions) }
    ensures { level_told (Ok result) ≡ told (cells d.now) r.0 }
{
    let own = read::count(d, r);
    let total = read::updates(d);
    Level {
        own: own as u16,
        total: total as u16,
    }
}

// Checks 3 and 4 on the lower half. A busy revision is told too.
#[tactic(auto, unfolding(table::specs::Found::fill_in, checks::specs::Answers::given_check, checks::specs::Answers::joined_check))]
fn fill_in(d: &[u8], revision: u8) -> Result<Level, Refusal>
    requires { length d.now ≡ Lower.lower_bytes }
    ensures { level_told result ≡ fill_in (cells d.now) revision }
{
    let Some(r) = check_given(d, revision) else {
        return Err(Refusal::NeverSent);
    };
    let JoinedCheck::Out = check_joined(d, r) else {
        return Err(Refusal::Joined);
    };
    Ok(tell(d, r))
}

#[tactic(auto, unfolding(table::specs::Checks::table_check, table::specs::Halves::is_table))]
pub fn fill(t: &[u8], revision: u8) -> Result<Level, Refusal>
    ensures { level_told result ≡ fill_out t.now revision }
{
    let TableCheck::Sound = check_table(t) else {
        return Err(Refusal::NoTable);
    };
    fill_in(&t[0..Table::LOWER], revision)
}
