// The announcer's board (02, U10): 5,000 lent bytes, five for each bib. Knows bibs and their standings, no revision and no table.
#![tactic(auto)]

pub mod check; // check.rt: code 19, a board by its length
pub mod entry; // entry.rt: a bib's entry, found and written anew
pub mod post; // post.rt: an update applied to the board
