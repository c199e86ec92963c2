// The table of 65,536 bytes: what the calls answer and leave, and the checks that they share. The calls stand above.
#![tactic(auto)]

pub mod answer; // answer.rt: what a call answers with
pub mod bib; // bib.rt: the check of a bib
pub mod board; // board.rt: the board's step behind a call
pub mod counts; // counts.rt: two counts of a whole table
pub mod join; // join.rt: the checks of a join
pub mod idle; // idle.rt: the checks of a revision that must not be busy
pub mod refusal; // refusal.rt: why a call is refused
pub mod sound; // sound.rt: the check that the buffer is a table
pub mod visible; // visible.rt: the updates visible at a revision
