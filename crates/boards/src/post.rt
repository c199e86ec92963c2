// An update applied to the board.
ghost use Rattle.std.specs.Prelude.{◌≡◌, length};
ghost use Rattle.boards.specs.Board.{board_bytes, posted};

use crate::check::Board;
use crate::entry;
use updates::kind::Kind;
use updates::standing::apply;

// Applied to the entry found, which is written anew. A bib above 999 has none: no call takes an update of such a bib.
#[tactic(auto, unfolding(crate::specs::Board::wrote))]
pub fn post(board: &mut [u8], bib: u16, kind: Kind, v: u32)
    requires { length board.old ≡ board_bytes }
    ensures { board.new ≡ posted board.old bib (record { kind = kind; v = v }) }
{
    if bib < Board::BIBS {
        let before = entry::find(board, bib);
        entry::write(board, bib, apply(kind, v, before));
    }
}
