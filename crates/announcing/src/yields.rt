// The call yield: a client's open transaction, if any, is closed; of one on the main revision the updates are shown on the board.
ghost use Rattle.std.specs.Prelude.{true, ◌≡◌, length};
ghost use Rattle.boards.specs.Board.{board_bytes};
ghost use Rattle.table.specs.Halves.{is_table};
ghost use Rattle.table.specs.Out.{table_bytes};
ghost use Rattle.table.specs.Told.{left};
ghost use Rattle.table.specs.Calls.{board_out, yield_out};

use boards::check::{BoardCheck, check_board};
use table::board::{bring, settled};
use table::refusal::Refusal;
use table::sound;
use table::sound::TableCheck;
use updating::yields::yield_sound;

#[tactic(auto, unfolding(table::specs::Checks::table_check, table::specs::Halves::is_table))]
pub fn yields(t: &mut [u8], board: &mut [u8], client: u8) -> Result<u32, Refusal>
    ensures { (left result t.new ≡ yield_out t.old client (length board.old)) × (board.new ≡ board_out t.old t.new board.old) }
{
    let TableCheck::Sound = sound::check_table(t) else {
        return Err(Refusal::NoTable);
    };
    let BoardCheck::Sound = check_board(board) else {
        return Err(Refusal::WrongBoard);
    };
    let before = settled(t);
    let answer = yield_sound(t, client);
    bring(t, before, board);
    answer
}
