// The call join on bytes that are a table: a revision joins another; how many updates the joinee had of its own is the value. The call with its board
// stands above.
ghost use Rattle.std.specs.Prelude.{◌≡◌, true, ◌++◌, ◌<◌, length};
ghost use Rattle.boards.specs.Board.{board_bytes};
ghost use Rattle.cells.specs.Sizes.{revisions};
ghost use Rattle.cells.specs.Range.{in_range};
ghost use Rattle.cells.specs.Steps.{join_bytes};
ghost use Rattle.table.specs.Halves.{cells_of, high, is_table, low};
ghost use Rattle.table.specs.Out.{table_bytes};
ghost use Rattle.table.specs.Told.{left};
ghost use Rattle.table.specs.Calls.{join_out};

use sizes::numbers::Revision;
use sizes::table::Table;
use table::join::check_join;
use table::refusal::Refusal;

// b is joined into a. How many updates a gained is the answer.
pub fn join_lower(t: &mut [u8], a: Revision, b: Revision) -> u32
    requires { (length t.old ≡ table_bytes) × (in_range (low t.old) ≡ true) × (a.0 < revisions) × (b.0 < revisions) }
    ensures { (result ≡ (cells_of t.old).count b.0) × (t.new ≡ join_bytes (low t.old) a.0 b.0 ++ high t.old) }
{
    let n = handing::join::join(&mut t[0..Table::LOWER], a, b);
    n as u32
}

// The checks, then the work; the board has the right length.
pub fn join_sound(t: &mut [u8], joiner: u8, joinee: u8) -> Result<u32, Refusal>
    requires { (is_table t.old ≡ true) × (length t.old ≡ table_bytes) × (in_range (low t.old) ≡ true) }
    ensures { left result t.new ≡ join_out t.old joiner joinee board_bytes }
{
    let (a, b) = check_join(&t[0..Table::LOWER], joiner, joinee)?;
    let value = join_lower(t, a, b);
    Ok(value)
}
