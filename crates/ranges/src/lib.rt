// Code 1: whether every cell of a table's first 40,960 bytes is in its range. The codes of a call stand in `checks`.
#![tactic(auto)]

pub mod range; // range.rt: each part's cells against their limits
