// How a bib stands: the call query.
#![tactic(auto)]

pub mod back; // back.rt: the walk back along the order of a revision
pub mod query; // query.rt: the call query
pub mod standing; // standing.rt: the standing of a bib
