// A long day: 20,100 forks and as many joins but those of boxes still out, of nested and late boxes, with clients whose last event is on
// an earlier bearer of a number. What it writes is compared; rust/days has the same day, on the literal replay.
#![tactic(auto)]

mod probes; // probes.rt: lists, fills and previews on numbers used again
mod rounds; // rounds.rt: what happens in a round
mod say; // say.rt: lines on standard output
mod steps; // steps.rt: the calls that a round is made of
mod tally; // tally.rt: what the calls answered

use boards::check::Board;
use rounds::Sent;
use sizes::table::Table;
use std::io;
use tally::Tally;

const ROUNDS: u32 = 6700;

// How many rounds a box is carried before it is handed in.
const LATE: usize = 20;

fn meeting(rt: &impl Print, t: &mut [u8], board: &mut [u8], sheet: &mut [u8]) -> io::Result<()> {
    let mut late: [Option<Sent>; LATE] = [None; LATE];
    let mut tally = Tally::default();
    for i in 0..ROUNDS {
        let slot = (i % 20) as usize;
        let sent = rounds::send(t, board, i, &mut tally);
        if let Some(back) = late[slot].replace(sent) {
            rounds::receive(t, board, back, &mut tally);
        }
        if i % 100 == 99 {
            say::tally(rt, i + 1, &tally)?;
            probes::probe(rt, t, sheet, sent.sender, i)?;
        }
    }
    Ok(())
}

fn main(rt: HostRuntime) -> io::Result<()> {
    let mut t = [0u8; Table::BYTES];
    let mut board = [0u8; Board::BYTES];
    let mut sheet = [0u8; Table::BYTES];
    let _ = announcing::fresh::fresh(&mut t, &mut board, false);
    meeting(&rt, &mut t, &mut board, &mut sheet)
}
