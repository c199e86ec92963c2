// 02, U14: "Eight boxes and 1,201 updates cost a member 2,878 cents; three boxes and 250 updates cost 2,000."
use crate::calls::fresh;
use crate::forks::chain;
use crate::log::fill;
use crate::say;
use std::io;

fn bill(rt: &impl Print, t: &[u8], member: bool) -> io::Result<()> {
    say::answer(rt, "bill", billing::bill::bill(t, member))
}

// For a member, and for another.
fn both(rt: &impl Print, t: &[u8]) -> io::Result<()> {
    bill(rt, t, true)?;
    bill(rt, t, false)
}

pub fn eight(rt: &impl Print, t: &mut [u8], board: &mut [u8]) -> io::Result<()> {
    say::title(rt, "bills: eight boxes and 1,201 updates")?;
    fresh(rt, t, board)?;
    chain(rt, t, 7)?;
    say::count(rt, "taken on 0:", fill(t, 0, 1201))?;
    both(rt, t)
}

pub fn three(rt: &impl Print, t: &mut [u8], board: &mut [u8]) -> io::Result<()> {
    say::title(rt, "bills: three boxes and 250 updates")?;
    fresh(rt, t, board)?;
    chain(rt, t, 2)?;
    say::count(rt, "taken on 0:", fill(t, 0, 250))?;
    both(rt, t)
}

// 1 of a buffer that is no table.
pub fn none(rt: &impl Print, short: &[u8]) -> io::Result<()> {
    say::title(rt, "bills: no table")?;
    both(rt, short)
}
