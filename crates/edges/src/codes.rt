// Codes 1 to 8, 11 and 12, each at least once; 9 is in log.rt, 10 in forks.rt.
use crate::calls::{fork, fresh, join, list, query, update, yields};
use crate::say;
use std::io;

pub fn one(rt: &impl Print, short: &mut [u8], t: &mut [u8], board: &mut [u8]) -> io::Result<()> {
    say::title(rt, "1 no table: 4,096 bytes; cells out of range")?;
    fresh(rt, short, board)?;
    yields(rt, short, board, 0)?;
    yields(rt, t, board, 0)?;
    fresh(rt, t, board)
}

pub fn two_to_four(rt: &impl Print, t: &mut [u8], board: &mut [u8]) -> io::Result<()> {
    say::title(rt, "2 strange tablet")?;
    yields(rt, t, board, 16)?;
    say::title(rt, "3 never sent")?;
    fork(rt, t, 1)?;
    join(rt, t, board, 0, 64)?;
    say::title(rt, "4 handed in")?;
    fork(rt, t, 0)?;
    join(rt, t, board, 0, 1)?;
    query(rt, t, 0, 1, 7)
}

pub fn five(rt: &impl Print, t: &mut [u8]) -> io::Result<()> {
    say::title(rt, "5 bad entry: bib 1000; kind 0; kind 5")?;
    query(rt, t, 0, 0, 1000)?;
    update(rt, t, 0, 0, 0, 7, 1)?;
    update(rt, t, 0, 0, 5, 7, 1)
}

pub fn six_and_seven(
    rt: &impl Print,
    t: &mut [u8],
    board: &mut [u8],
    sheet: &mut [u8],
) -> io::Result<()> {
    say::title(rt, "6 other box open")?;
    fork(rt, t, 0)?;
    update(rt, t, 0, 0, 1, 7, 1)?;
    query(rt, t, 0, 2, 7)?;
    say::title(rt, "7 in use")?;
    update(rt, t, 1, 0, 1, 7, 1)?;
    fork(rt, t, 0)?;
    list(rt, t, 0, sheet)?;
    join(rt, t, board, 2, 0)
}

pub fn eight_to_twelve(
    rt: &impl Print,
    t: &mut [u8],
    board: &mut [u8],
    sheet: &mut [u8],
) -> io::Result<()> {
    say::title(rt, "8 not caught up")?;
    yields(rt, t, board, 0)?;
    query(rt, t, 0, 2, 7)?;
    say::title(rt, "11 not joinable: box 0; itself")?;
    join(rt, t, board, 2, 0)?;
    join(rt, t, board, 2, 2)?;
    say::title(rt, "12 sheet short")?;
    list(rt, t, 0, sheet)
}
