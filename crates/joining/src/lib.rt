// The calls join and sync on bytes that are a table. They stop short of the board, which is lent above.
#![tactic(auto)]

pub mod join; // join.rt: the call join on a table
pub mod sync; // sync.rt: the call sync on a table
