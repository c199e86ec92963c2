// Code 19: a board has 5,000 bytes. Every content is a board's.
ghost use Rattle.std.specs.Prelude.{◌≡◌, length};
ghost use Rattle.boards.specs.Board.{board_check};

#[derive(Drop)]
pub struct Board;

impl Board {
    pub const BYTES: usize = 5000;

    // Bytes of a bib's entry.
    pub const ENTRY: usize = 5;

    pub const BIBS: u16 = 1000;

    // The first byte of an entry: the bib is struck.
    pub const STRUCK: u8 = 1;
}

#[derive(Clone, Copy, Debug, PartialEq, Eq)]
pub enum BoardCheck {
    Sound,
    Wrong,
}

#[tactic(auto, unfolding(crate::specs::Board::board_check))]
pub fn check_board(board: &[u8]) -> BoardCheck
    ensures { result ≡ board_check (length board.now) }
{
    if board.len() == Board::BYTES {
        return BoardCheck::Sound;
    }
    BoardCheck::Wrong
}
