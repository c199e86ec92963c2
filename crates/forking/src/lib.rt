// A day's revisions: the first of a fresh table, and those forked. Fresh stops short of the board, which is lent above.
#![tactic(auto)]

pub mod fork; // fork.rt: the call fork
pub mod fresh; // fresh.rt: a new day
