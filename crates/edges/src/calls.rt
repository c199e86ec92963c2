// The calls of the table, each with a line of its name, code and value.
use crate::say;
use std::io;

pub fn fresh(rt: &impl Print, t: &mut [u8], board: &mut [u8]) -> io::Result<()> {
    say::answer(rt, "fresh", announcing::fresh::fresh(t, board, false))
}

pub fn update(
    rt: &impl Print,
    t: &mut [u8],
    client: u8,
    revision: u8,
    kind: u8,
    bib: u16,
    v: u32,
) -> io::Result<()> {
    say::answer(
        rt,
        "update",
        updating::update::update(t, client, revision, kind, bib, v),
    )
}

pub fn query(rt: &impl Print, t: &mut [u8], client: u8, revision: u8, bib: u16) -> io::Result<()> {
    say::reading(
        rt,
        "query",
        querying::query::query(t, client, revision, bib),
    )
}

pub fn yields(rt: &impl Print, t: &mut [u8], board: &mut [u8], client: u8) -> io::Result<()> {
    say::answer(rt, "yield", announcing::yields::yields(t, board, client))
}

pub fn fork(rt: &impl Print, t: &mut [u8], revision: u8) -> io::Result<()> {
    say::answer(rt, "fork", forking::fork::fork(t, revision))
}

pub fn join(
    rt: &impl Print,
    t: &mut [u8],
    board: &mut [u8],
    joiner: u8,
    joinee: u8,
) -> io::Result<()> {
    say::answer(rt, "join", announcing::join::join(t, board, joiner, joinee))
}

// With the sheet's bytes, if there are few.
pub fn list(rt: &impl Print, t: &[u8], revision: u8, sheet: &mut [u8]) -> io::Result<()> {
    say::answer(rt, "list", listing::list::list(t, revision, sheet))?;
    if sheet.len() < 100 {
        say::bytes(rt, "sheet", sheet)?;
    }
    Ok(())
}
