// The call drop (02, U9): the mark that bears a name is given up, and its number waits to be used again.
ghost use Rattle.std.specs.Prelude.{◌≡◌, true, ◌++◌, ◌<◌, length};
ghost use Rattle.cells.specs.Sizes.{revisions};
ghost use Rattle.cells.specs.Range.{in_range};
ghost use Rattle.cells.specs.Steps.{drop_bytes};
ghost use Rattle.table.specs.Halves.{high, is_table, low};
ghost use Rattle.table.specs.Out.{table_bytes};
ghost use Rattle.table.specs.Told.{left};
ghost use Rattle.table.specs.Calls.{drop_out};

use checks::bearer::check_bearer;
use sizes::numbers::Revision;
use sizes::table::Table;
use table::refusal::Refusal;
use table::sound;
use table::sound::TableCheck;

// Mark r is dropped.
fn drop_lower(t: &mut [u8], r: Revision)
    requires { (length t.old ≡ table_bytes) × (in_range (low t.old) ≡ true) × (r.0 < revisions) }
    ensures { t.new ≡ drop_bytes (low t.old) r.0 ++ high t.old }
{
    handing::drop::drop(&mut t[0..Table::LOWER], r);
}

// The call on bytes that are a table: check 18.
#[tactic(auto, unfolding(table::specs::Calls::drop_out, table::specs::Halves::low, checks::specs::Answers::bearer_check))]
fn drop_sound(t: &mut [u8], name: &[u8]) -> Result<u32, Refusal>
    requires { (is_table t.old ≡ true) × (length t.old ≡ table_bytes) × (in_range (low t.old) ≡ true) }
    ensures { left result t.new ≡ drop_out t.old name.now }
{
    let Some(r) = check_bearer(&t[0..Table::LOWER], name) else {
        return Err(Refusal::NoSuchMark);
    };
    drop_lower(t, r);
    Ok(0)
}

#[tactic(auto, unfolding(table::specs::Calls::drop_out, table::specs::Checks::table_check, table::specs::Halves::is_table))]
pub fn drop(t: &mut [u8], name: &[u8]) -> Result<u32, Refusal>
    ensures { left result t.new ≡ drop_out t.old name.now }
{
    let TableCheck::Sound = sound::check_table(t) else {
        return Err(Refusal::NoTable);
    };
    drop_sound(t, name)
}
