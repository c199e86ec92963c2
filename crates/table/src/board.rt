// The board's step behind a call that it is lent to (02, U10): what the call brought to the main revision is posted.
ghost use Rattle.std.specs.Prelude.{true, ◌≡◌, length};
ghost use Rattle.boards.specs.Board.{board_bytes};
ghost use Rattle.cells.specs.Cells.{Settles, settled_since};
ghost use Rattle.cells.specs.Range.{in_range};
ghost use Rattle.posting.specs.Brought.{entries_posted};
ghost use Rattle.table.specs.Halves.{cells_of, high, low};
ghost use Rattle.table.specs.Out.{table_bytes};

use fields::read;
use posting::brought::post_brought;
use sizes::table::Table;

// How many of the main revision's own updates are settled: read before the call.
#[tactic(auto, unfolding(crate::specs::Halves::low))]
pub fn settled(t: &[u8]) -> usize
    requires { length t.now ≡ table_bytes }
    ensures { result ≡ (cells_of t.now).settled }
{
    read::settled(&t[0..Table::LOWER])
}

// What was brought since `before` of them were settled, by the table that the call left.
pub fn bring(t: &[u8], before: usize, board: &mut [u8])
    requires { (length t.now ≡ table_bytes) × (in_range (low t.now) ≡ true) × Settles before (cells_of t.now) × (length board.old ≡ board_bytes) }
    ensures { board.new ≡ entries_posted (high t.now) (settled_since before (cells_of t.now)) board.old }
{
    post_brought(
        &t[0..Table::LOWER],
        &t[Table::LOWER..Table::BYTES],
        before,
        board,
    );
}
