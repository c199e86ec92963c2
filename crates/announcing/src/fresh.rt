// The call fresh: a new day, whatever the bytes were, and a board that is cleared.
ghost use Rattle.std.specs.Prelude.{◌≡◌, length};
ghost use Rattle.table.specs.Told.{left};
ghost use Rattle.table.specs.Calls.{fresh_board, fresh_out};

use boards::check::{BoardCheck, check_board};
use buffers::clear::clear;
use forking::fresh::start;
use table::refusal::Refusal;
use table::sound;
use table::sound::LengthCheck;

// `single` is the choice of a single-main day (02, U8).
#[tactic(auto, unfolding(table::specs::Calls::fresh_out, table::specs::Calls::fresh_board, table::specs::Checks::length_check, boards::specs::Board::board_check))]
pub fn fresh(t: &mut [u8], board: &mut [u8], single: bool) -> Result<u32, Refusal>
    ensures { (left result t.new ≡ fresh_out t.old single (length board.old)) × (board.new ≡ fresh_board t.old single board.old) }
{
    let LengthCheck::Right = sound::check_length(t) else {
        return Err(Refusal::NoTable);
    };
    let BoardCheck::Sound = check_board(board) else {
        return Err(Refusal::WrongBoard);
    };
    start(t, single);
    clear(board);
    Ok(0)
}
