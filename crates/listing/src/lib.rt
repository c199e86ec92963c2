// What a revision shows and holds: the calls list and fill.
#![tactic(auto)]

pub mod fill; // fill.rt: the call fill
pub mod list; // list.rt: the call list
