// The updates brought to the main revision's settled ones, found along the links and posted in listed order. The cost is in proportion to
// them: no earlier update is looked at, and no other entry of the board.
ghost use Rattle.std.specs.Prelude.{◌≡◌, true, ◌≤◌, ◌<◌, length};
ghost use Rattle.cells.specs.Sizes.{lower_bytes, main, updates};
ghost use Rattle.cells.specs.Cells.{Settles, chain, settled_since};
ghost use Rattle.cells.specs.Decode.{cells};
ghost use Rattle.cells.specs.Range.{in_range};
ghost use Rattle.entries.specs.Sizes.{entry_bytes};
ghost use Rattle.entries.specs.Entries.{entry_at};
ghost use Rattle.boards.specs.Board.{board_bytes};
ghost use Rattle.posting.specs.Brought.{entries_posted, entry_posted};

use boards::post::post;
use fields::read;
use order::links;
use sizes::numbers::Revision;

// Entry n.
fn post_entry(t: &[u8], n: u16, board: &mut [u8])
    requires { (length t.now ≡ entry_bytes) × (length board.old ≡ board_bytes) }
    ensures { board.new ≡ entry_posted t.now n board.old }
{
    let e = entries::read::read(t, n);
    let kind = e.kind;
    post(board, e.bib, kind, e.v);
}

// The entries of the numbers in `order`.
fn post_all(t: &[u8], order: &[u16], board: &mut [u8])
    requires { (length t.now ≡ entry_bytes) × (length board.old ≡ board_bytes) }
    ensures { board.new ≡ entries_posted t.now order.now board.old }
{
    for n in order {
        post_entry(t, *n, board);
    }
}

// The last n of the main revision's own updates, with room for n numbers.
fn post_last(d: &[u8], t: &[u8], n: usize, room: &mut [u16], board: &mut [u8])
    requires { (length d.now ≡ lower_bytes) × (in_range d.now ≡ true) × (length t.now ≡ entry_bytes) × (n ≤ length room.old) × (length board.old ≡ board_bytes) }
    ensures { board.new ≡ entries_posted t.now (chain (cells d.now).link ((cells d.now).last main) n) board.old }
{
    let at = read::last(d, Revision::main());
    links::gather(d, at, n, room);
    post_all(t, &room[..n], board);
}

// Room for a transaction or a gain of the usual size: all that a bundle has. A larger one has room for every update.
const FEW: usize = 64;

// What was brought since `before` of the main revision's updates were settled. d and t are the halves of the table.
pub fn post_brought(d: &[u8], t: &[u8], before: usize, board: &mut [u8])
    requires { (length d.now ≡ lower_bytes) × (in_range d.now ≡ true) × Settles before (cells d.now) × (length t.now ≡ entry_bytes) × (length board.old ≡ board_bytes) }
    ensures { board.new ≡ entries_posted t.now (settled_since before (cells d.now)) board.old }
{
    let settled = read::settled(d);
    if settled <= before {
        return;
    }
    let n = settled - before;
    if n <= FEW {
        let mut room = [0; FEW];
        post_last(d, t, n, &mut room, board);
        return;
    }
    let mut room = links::room();
    post_last(d, t, n, &mut room, board);
}
