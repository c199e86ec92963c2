// Marks (02, U9): a mark that is forked, and one that is dropped.
#![tactic(auto)]

pub mod drop; // drop.rt: the call drop
pub mod mark; // mark.rt: the call mark
