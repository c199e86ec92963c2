// Calls that only look, on the main revision and on a number used many times.
use crate::say;
use std::io;

pub fn probe(rt: &impl Print, t: &[u8], sheet: &mut [u8], revision: u8, i: u32) -> io::Result<()> {
    say::answer(rt, "list", listing::list::list(t, 0, sheet))?;
    say::level(rt, listing::fill::fill(t, revision))?;
    say::prospect(
        rt,
        previewing::preview::preview(t, 0, revision, (i % 1000) as u16),
    )?;
    say::answer(rt, "list", listing::list::list(t, revision, sheet))
}
