// 02, U10: code 19, right after 1 and for a bundle after 14; and what of the day the board shows.
use crate::calls::{fork, fresh, join, update, yields};
use crate::say;
use crate::sent::bundle;
use std::io;

// A yield, a join and a sync with another reason besides, of a later check: a strange tablet, a box never sent.
pub fn nineteen(
    rt: &impl Print,
    t: &mut [u8],
    short: &mut [u8],
    long: &mut [u8],
) -> io::Result<()> {
    say::title(rt, "19 wrong board: 4,999 bytes; 5,001 bytes")?;
    fresh(rt, t, short)?;
    yields(rt, t, long, 16)?;
    join(rt, t, short, 0, 64)?;
    say::answer(rt, "sync", announcing::sync::sync(t, long, 64))
}

// A bundle of a strange tablet has 19; one of 65 entries has 14.
pub fn after_fourteen(
    rt: &impl Print,
    t: &mut [u8],
    short: &mut [u8],
    long: &mut [u8],
) -> io::Result<()> {
    bundle(rt, t, short, 16, 1, 64)?;
    bundle(rt, t, long, 0, 1, 65)
}

// The entry of bib 7.
fn shown(rt: &impl Print, board: &[u8]) -> io::Result<()> {
    let Some(entry) = board.get(35..40) else {
        return Ok(());
    };
    say::bytes(rt, "board", entry)
}

// An update alone is not shown; the yield that closes its transaction on box 0 shows it.
pub fn yielded(rt: &impl Print, t: &mut [u8], board: &mut [u8]) -> io::Result<()> {
    say::title(rt, "bib 7 on the board: an update; its yield on box 0")?;
    fresh(rt, t, board)?;
    update(rt, t, 0, 0, 1, 7, 61000)?;
    shown(rt, board)?;
    yields(rt, t, board, 0)?;
    shown(rt, board)
}

// What is closed on another box is shown once that box is joined into box 0.
pub fn joined(rt: &impl Print, t: &mut [u8], board: &mut [u8]) -> io::Result<()> {
    say::title(
        rt,
        "bib 7 on the board: a strike closed on box 1; the join into box 0",
    )?;
    fork(rt, t, 0)?;
    update(rt, t, 1, 1, 4, 7, 5)?;
    yields(rt, t, board, 1)?;
    shown(rt, board)?;
    join(rt, t, board, 0, 1)?;
    shown(rt, board)
}

// A bundle shows what its client entered singly before, in the same transaction: a Time, which lifts the strike.
pub fn bundled(rt: &impl Print, t: &mut [u8], board: &mut [u8]) -> io::Result<()> {
    say::title(
        rt,
        "bib 7 on the board: an update, and a bundle that continues it",
    )?;
    update(rt, t, 2, 0, 1, 7, 9)?;
    bundle(rt, t, board, 2, 2, 64)?;
    shown(rt, board)
}
