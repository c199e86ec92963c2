// A bib's entry on the board, found and written anew.
ghost use Rattle.std.specs.Prelude.{◌≡◌, ◌∷◌, ◌<◌, length};
ghost use Rattle.buffers.specs.Numbers.{word};
ghost use Rattle.boards.specs.Board.{board_bytes, bibs, found, shown, standing_in, wrote};

use crate::check::Board;
use buffers::numbers::read;
use updates::standing::Standing;

// Five bytes read: struck if the first is 1, else the value.
#[tactic(auto, unfolding(crate::specs::Board::standing_in))]
fn load(p: &[u8]) -> Standing
    requires { length p.now ≡ 5 }
    ensures { result ≡ standing_in p.now }
{
    if p[0] == Board::STRUCK {
        return Standing::Struck;
    }
    Standing::At(read(&p[1..Board::ENTRY]) as u32)
}

pub fn find(board: &[u8], bib: u16) -> Standing
    requires { (length board.now ≡ board_bytes) × (bib < bibs) }
    ensures { result ≡ found board.now bib }
{
    let at = Board::ENTRY * usize::from(bib);
    let end = at + Board::ENTRY;
    load(&board[at..end])
}

// Five bytes: the first, then the value.
fn store(p: &mut [u8], first: u8, v: u32)
    requires { length p.old ≡ 5 }
    ensures { p.new ≡ first ∷ word v }
{
    let [v0, v1, v2, v3] = v.to_le_bytes();
    p.copy_from_slice(&[first, v0, v1, v2, v3]);
}

// The entry of a standing; a struck bib's value is 0.
#[tactic(auto, unfolding(crate::specs::Board::shown))]
fn show(p: &mut [u8], s: Standing)
    requires { length p.old ≡ 5 }
    ensures { p.new ≡ shown s }
{
    match s {
        Standing::Struck => store(p, Board::STRUCK, 0),
        Standing::At(value) => store(p, 0, value),
    }
}

#[tactic(auto, unfolding(crate::specs::Board::wrote))]
pub fn write(board: &mut [u8], bib: u16, s: Standing)
    requires { (length board.old ≡ board_bytes) × (bib < bibs) }
    ensures { board.new ≡ wrote board.old bib s }
{
    let at = Board::ENTRY * usize::from(bib);
    let end = at + Board::ENTRY;
    show(&mut board[at..end], s);
}
