// The day file as bytes: its check, and each record as a step. Knows no table.
#![tactic(auto)]

pub mod file; // file.rt: the check of the file
mod record; // record.rt: twelve bytes decoded
pub mod step; // step.rt: a step, and the step of a record by its index
