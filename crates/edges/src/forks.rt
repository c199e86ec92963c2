// "The 63rd fork gives box 63, the next gives 10"; 02, U7: a number handed in is used again once every number was used.
use crate::calls::{fork, fresh, join};
use crate::say;
use std::io;

// Each revision from 0 on forks the next.
pub fn chain(rt: &impl Print, t: &mut [u8], many: u8) -> io::Result<()> {
    for i in 0..many {
        fork(rt, t, i)?;
    }
    Ok(())
}

// 64 are out, and no more, until one is joined.
pub fn all(rt: &impl Print, t: &mut [u8], board: &mut [u8]) -> io::Result<()> {
    say::title(rt, "forks")?;
    fresh(rt, t, board)?;
    chain(rt, t, 63)?;
    fork(rt, t, 0)?;
    fork(rt, t, 63)?;
    join(rt, t, board, 62, 63)?;
    fork(rt, t, 0)?;
    fork(rt, t, 0)
}

// Two of 62 are joined, the higher number first; then the number never used is given.
pub fn again(rt: &impl Print, t: &mut [u8], board: &mut [u8]) -> io::Result<()> {
    say::title(rt, "numbers used again")?;
    fresh(rt, t, board)?;
    chain(rt, t, 62)?;
    join(rt, t, board, 61, 62)?;
    join(rt, t, board, 60, 61)?;
    fork(rt, t, 61)?;
    fork(rt, t, 0)
}

// The two that were joined, the one joined longest ago first, and no more.
pub fn longest_ago(rt: &impl Print, t: &mut [u8], board: &mut [u8]) -> io::Result<()> {
    fork(rt, t, 0)?;
    fork(rt, t, 0)?;
    fork(rt, t, 0)?;
    join(rt, t, board, 0, 61)?;
    fork(rt, t, 63)?;
    join(rt, t, board, 63, 61)
}
