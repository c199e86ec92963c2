// An order of updates as a file (02, U13): its check, the place of each number, and whether a list stands in it in order. Knows no table.
#![tactic(auto)]

pub mod file; // file.rt: the check of the file
pub mod places; // places.rt: the place of each number, if each stands there once
pub mod rising; // rising.rt: whether the places of a list rise
