// Lists before and after a join, of a revision without updates, and on a sheet one byte short.
use crate::calls::{fork, fresh, join, list, update, yields};
use crate::say;
use std::io;

pub fn none(rt: &impl Print, t: &mut [u8], board: &mut [u8], sheet: &mut [u8]) -> io::Result<()> {
    say::title(rt, "list of no updates")?;
    fresh(rt, t, board)?;
    list(rt, t, 0, sheet)
}

// Revision 1 has a Penalty, then revision 0 a Time, which stands first after the join, though its number is larger.
pub fn enter(rt: &impl Print, t: &mut [u8], board: &mut [u8]) -> io::Result<()> {
    say::title(rt, "updates on two boxes")?;
    fork(rt, t, 0)?;
    update(rt, t, 1, 1, 3, 999, 4294967295)?;
    update(rt, t, 15, 0, 1, 7, 61000)?;
    yields(rt, t, board, 1)?;
    yields(rt, t, board, 15)
}

pub fn before(rt: &impl Print, t: &mut [u8], sheet: &mut [u8]) -> io::Result<()> {
    say::title(rt, "lists before a join")?;
    list(rt, t, 0, sheet)?;
    list(rt, t, 1, sheet)
}

pub fn after(
    rt: &impl Print,
    t: &mut [u8],
    board: &mut [u8],
    sheet: &mut [u8],
    short: &mut [u8],
) -> io::Result<()> {
    say::title(rt, "lists after a join")?;
    join(rt, t, board, 0, 1)?;
    list(rt, t, 0, short)?;
    list(rt, t, 0, sheet)?;
    list(rt, t, 1, sheet)
}
