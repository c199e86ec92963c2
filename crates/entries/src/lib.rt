// The entries of updates, six bytes each, in 24,576 lent bytes; and a standing folded from them. Knows no revision.
#![tactic(auto)]

pub mod entry; // entry.rt: an update as it was entered
pub mod kept; // kept.rt: the numbers that a walk back keeps for a bib
pub mod load; // load.rt: six bytes decoded
pub mod read; // read.rt: an entry by its number
pub mod store; // store.rt: an entry put into six bytes
pub mod standing; // standing.rt: the standing of a bib, from numbered entries
pub mod write; // write.rt: the entry of a number replaced
