// The edges of a race day that are not starred, run on the table: 01, "Edges of a race day"; and those of the board and of bills (02, U10 and U14). What it writes is compared.
#![tactic(auto)]

mod announced; // announced.rt: the board, and boards of a wrong length
mod calls; // calls.rt: the calls, each with a line
mod codes; // codes.rt: each code
mod forks; // forks.rt: 64 revisions out, and no more; numbers used again
mod listings; // listings.rt: lists before and after joins
mod log; // log.rt: 4,096 updates, and no more
mod rents; // rents.rt: bills
mod sent; // sent.rt: bundles of entries
mod say; // say.rt: lines on standard output

use boards::check::Board;
use sizes::table::Table;
use std::io;

fn log_full(rt: &impl Print) -> io::Result<()> {
    let mut t = [0u8; Table::BYTES];
    let mut board = [0u8; Board::BYTES];
    let mut sheet = [0u8; Table::BYTES];
    log::fill_up(rt, &mut t, &mut board)?;
    log::beyond(rt, &mut t, &mut board)?;
    log::joined(rt, &mut t, &mut board, &mut sheet)
}

fn all_forks(rt: &impl Print) -> io::Result<()> {
    let mut t = [0u8; Table::BYTES];
    let mut board = [0u8; Board::BYTES];
    forks::all(rt, &mut t, &mut board)?;
    forks::again(rt, &mut t, &mut board)?;
    forks::longest_ago(rt, &mut t, &mut board)
}

fn around_a_join(rt: &impl Print) -> io::Result<()> {
    let mut t = [0u8; Table::BYTES];
    let mut board = [0u8; Board::BYTES];
    let mut none = [0u8; 0];
    let mut sheet = [9u8; 26];
    let mut short = [9u8; 23];
    listings::none(rt, &mut t, &mut board, &mut none)?;
    listings::enter(rt, &mut t, &mut board)?;
    listings::before(rt, &mut t, &mut sheet)?;
    listings::after(rt, &mut t, &mut board, &mut sheet, &mut short)
}

fn each_code(rt: &impl Print) -> io::Result<()> {
    let mut short = [0u8; 4096];
    let mut t = [0u8; Table::BYTES];
    let mut board = [0u8; Board::BYTES];
    let mut sheet = [0u8; 11];
    codes::one(rt, &mut short, &mut t, &mut board)?;
    codes::two_to_four(rt, &mut t, &mut board)?;
    codes::five(rt, &mut t)?;
    codes::six_and_seven(rt, &mut t, &mut board, &mut sheet)?;
    codes::eight_to_twelve(rt, &mut t, &mut board, &mut sheet)
}

fn bundles_of_entries(rt: &impl Print) -> io::Result<()> {
    let mut t = [0u8; Table::BYTES];
    let mut board = [0u8; Board::BYTES];
    sent::all(rt, &mut t, &mut board)?;
    sent::wrong(rt, &mut t, &mut board)
}

fn on_the_board(rt: &impl Print) -> io::Result<()> {
    let mut t = [0u8; Table::BYTES];
    let mut board = [0u8; Board::BYTES];
    let mut short = [0u8; Board::BYTES - 1];
    let mut long = [0u8; Board::BYTES + 1];
    announced::yielded(rt, &mut t, &mut board)?;
    announced::joined(rt, &mut t, &mut board)?;
    announced::bundled(rt, &mut t, &mut board)?;
    announced::nineteen(rt, &mut t, &mut short, &mut long)?;
    announced::after_fourteen(rt, &mut t, &mut short, &mut long)
}

fn bills(rt: &impl Print) -> io::Result<()> {
    let mut t = [0u8; Table::BYTES];
    let mut board = [0u8; Board::BYTES];
    let short = [0u8; 4096];
    rents::eight(rt, &mut t, &mut board)?;
    rents::three(rt, &mut t, &mut board)?;
    rents::none(rt, &short)
}

fn main(rt: HostRuntime) -> io::Result<()> {
    log_full(&rt)?;
    all_forks(&rt)?;
    around_a_join(&rt)?;
    each_code(&rt)?;
    bundles_of_entries(&rt)?;
    on_the_board(&rt)?;
    bills(&rt)
}
