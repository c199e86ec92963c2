// Words, half bytes, names, places and rows of flags in a part of the table, and where each part begins. Offsets are named here alone.
#![tactic(auto)]

pub mod gaps; // gaps.rt: a place of 64 taken out or put in
pub mod layout; // layout.rt: the places of the revisions that are out
pub mod names; // names.rt: names of four bytes in a part
pub mod numbers; // numbers.rt: words and half bytes in a part
pub mod parts; // parts.rt: where each part begins
pub mod rows; // rows.rt: a row of flags put into the rows
