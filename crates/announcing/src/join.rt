// The call join: a revision joins another, and the gain of a join into the main revision is shown on the board.
ghost use Rattle.std.specs.Prelude.{true, ◌≡◌, ◌≤◌, length};
ghost use Rattle.lists.specs.Differences.{differences};
ghost use Rattle.boards.specs.Board.{board_bytes};
ghost use Rattle.cells.specs.Range.{in_range};
ghost use Rattle.table.specs.Halves.{is_table, low};
ghost use Rattle.table.specs.Out.{table_bytes};
ghost use Rattle.table.specs.Told.{left};
ghost use Rattle.table.specs.Calls.{board_out, join_out};

use boards::check::{BoardCheck, check_board};
use joining::join::join_sound;
use table::board::{bring, settled};
use table::refusal::Refusal;
use table::sound;
use table::sound::TableCheck;

// The table differs from its former bytes at no more than 256 places (02, U11). "It doesn't cover the board."
#[tactic(auto, unfolding(table::specs::Checks::table_check, table::specs::Halves::is_table))]
pub fn join(t: &mut [u8], board: &mut [u8], joiner: u8, joinee: u8) -> Result<u32, Refusal>
    ensures { (left result t.new ≡ join_out t.old joiner joinee (length board.old)) × (board.new ≡ board_out t.old t.new board.old) × (differences t.old t.new ≤ 256) }
{
    let TableCheck::Sound = sound::check_table(t) else {
        return Err(Refusal::NoTable);
    };
    let BoardCheck::Sound = check_board(board) else {
        return Err(Refusal::WrongBoard);
    };
    let before = settled(t);
    let answer = join_sound(t, joiner, joinee);
    bring(t, before, board);
    answer
}
