// A joinee is handed in, or a mark dropped, on the first 40,960 bytes of a table. Its number may be used again.
#![tactic(auto)]

pub mod drop; // drop.rt: a mark is dropped, or a joinee handed in
pub mod join; // join.rt: a revision joins another
