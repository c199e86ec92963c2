// The call sync (02, U8) on bytes that are a table: a revision is joined into the main revision, which then forks; the new number is the value. The
// call with its board stands above.
ghost use Rattle.std.specs.Prelude.{◌≡◌, true, length};
ghost use Rattle.boards.specs.Board.{board_bytes};
ghost use Rattle.cells.specs.Range.{in_range};
ghost use Rattle.table.specs.Halves.{is_table, low};
ghost use Rattle.table.specs.Out.{table_bytes};
ghost use Rattle.table.specs.Told.{left};
ghost use Rattle.table.specs.Calls.{sync_out};

use crate::join::join_lower;
use checks::next::next;
use forking::fork::start;
use sizes::table::Table;
use table::join::check_join;
use table::refusal::Refusal;

// The join's checks, then the work; the board has the right length. Once the join is taken its fork is: the joinee's number is free.
pub fn sync_sound(t: &mut [u8], joinee: u8) -> Result<u32, Refusal>
    requires { (is_table t.old ≡ true) × (length t.old ≡ table_bytes) × (in_range (low t.old) ≡ true) }
    ensures { left result t.new ≡ sync_out t.old joinee board_bytes }
{
    let (a, b) = check_join(&t[0..Table::LOWER], 0, joinee)?;
    join_lower(t, a, b);
    let c = next(&t[0..Table::LOWER]);
    start(t, a, c);
    Ok(u32::from(c.0))
}
