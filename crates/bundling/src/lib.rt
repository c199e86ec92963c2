// Several updates of a client sent together, with the end of its transaction.
#![tactic(auto)]

pub mod bundle; // bundle.rt: a bundle on a table
