// The cells by name, over the first 40,960 bytes of a table: reads.
#![tactic(auto)]

pub mod read; // read.rt: each cell read
pub mod row; // row.rt: a row of inherited flags, by value
