// The four kinds of update and their effect on one bib. Knows no table, no client and no bytes.
#![tactic(auto)]

pub mod kind; // kind.rt: the kinds, and the range check of a kind byte
pub mod standing; // standing.rt: a bib's standing, and what one update makes of it
pub mod value; // value.rt: the earlier of two times, and a time with a penalty
