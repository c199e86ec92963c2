// The calls that a round is made of, each with what it answers told to the tally.
use crate::tally::Tally;
use announcing::join::join;
use announcing::yields::yields;
use forking::fork::fork;
use querying::query::query;
use updating::update::update;

// The kind Time.
const TIME: u8 = 1;

// The number of the box that a fork started, 0 if it was refused.
pub fn forks(t: &mut [u8], revision: u8, tally: &mut Tally) -> u8 {
    let a = fork(t, revision);
    tally.forked(a);
    (a.unwrap_or(0) % 256) as u8
}

pub fn joins(t: &mut [u8], board: &mut [u8], joiner: u8, joinee: u8, tally: &mut Tally) {
    tally.joined(join(t, board, joiner, joinee));
}

fn closes(t: &mut [u8], board: &mut [u8], client: u8, tally: &mut Tally) {
    tally.heard(yields(t, board, client));
}

// A time is entered and closed.
pub fn enters(t: &mut [u8], board: &mut [u8], client: u8, revision: u8, i: u32, tally: &mut Tally) {
    tally.updated(update(t, client, revision, TIME, (i % 1000) as u16, i));
    closes(t, board, client, tally);
}

// A bib is looked up on the main revision.
pub fn looks(t: &mut [u8], board: &mut [u8], client: u8, i: u32, tally: &mut Tally) {
    let a = query(t, client, 0, (i % 1000) as u16);
    tally.heard(a.map(|r| r.value));
    closes(t, board, client, tally);
}
