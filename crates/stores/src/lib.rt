// The cells by name, over the first 40,960 bytes of a table: writes, each of one part.
#![tactic(auto)]

pub mod fresh; // fresh.rt: the parts of a fresh day
pub mod write; // write.rt: each cell written
