// How a bib will stand: the call preview.
#![tactic(auto)]

pub mod preview; // preview.rt: the call preview
