// The printed day of a day file, as bytes in a lent buffer: the steps on a fresh table, and a line for each.
#![tactic(auto)]

mod lines; // lines.rt: one line a record
pub mod output; // output.rt: the size of the output, and the whole text
mod step; // step.rt: one step on the table
