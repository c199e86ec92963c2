// How a revision starts, on the first 40,960 bytes of a table: on a new day, by a fork or as a mark.
#![tactic(auto)]

pub mod fork; // fork.rt: a revision forks another
pub mod fresh; // fresh.rt: a new day
pub mod inherit; // inherit.rt: what a forked revision inherits
pub mod mark; // mark.rt: a revision is marked
