// What every crate of the table's code knows: its sizes, its fresh parts, and the numbers of revisions and clients.
#![tactic(auto)]

pub mod numbers; // numbers.rt: revision and client numbers
pub mod table; // table.rt: the sizes, and the parts of a fresh day
