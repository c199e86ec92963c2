// "Update 4,096 is taken, the next gives 9, and joins still work."
ghost use Rattle.std.specs.Prelude.{◌≤◌};

use crate::calls::{fork, fresh, join, list, query, update, yields};
use crate::say;
use std::io;

// How many of so many updates of client r on revision r are taken.
pub fn fill(t: &mut [u8], r: u8, many: u32) -> u32
    ensures { result ≤ many }
{
    let mut taken: u32 = 0;
    for i in 0..many {
        let a = updating::update::update(t, r, r, 1, (i % 1000) as u16, i);
        if a.is_ok() {
            taken += 1;
        }
    }
    taken
}

// The log is of all revisions together: 2,000 and 2,096.
pub fn fill_up(rt: &impl Print, t: &mut [u8], board: &mut [u8]) -> io::Result<()> {
    say::title(rt, "log full")?;
    fresh(rt, t, board)?;
    fork(rt, t, 0)?;
    say::count(rt, "taken on 0:", fill(t, 0, 2000))?;
    say::count(rt, "taken on 1:", fill(t, 1, 2096))
}

pub fn beyond(rt: &impl Print, t: &mut [u8], board: &mut [u8]) -> io::Result<()> {
    say::title(rt, "the next")?;
    update(rt, t, 0, 0, 1, 7, 5)?;
    update(rt, t, 1, 1, 1, 7, 5)?;
    query(rt, t, 1, 1, 95)?;
    yields(rt, t, board, 0)?;
    yields(rt, t, board, 1)
}

pub fn joined(rt: &impl Print, t: &mut [u8], board: &mut [u8], sheet: &mut [u8]) -> io::Result<()> {
    say::title(rt, "lists and a join with a full log")?;
    list(rt, t, 1, sheet)?;
    join(rt, t, board, 0, 1)?;
    list(rt, t, 0, sheet)?;
    query(rt, t, 2, 0, 999)
}
