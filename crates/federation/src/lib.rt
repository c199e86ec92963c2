// The calls on four tables and one log (02, U12). The choice of the course stands once for calls that write a table, once for those that only look, and once
// for fresh, which asks nothing of the other three tables. What is done on the course's table is a step that the choice is given: each call, in writing.rt
// and looking.rt, gives its own.
#![tactic(auto)]

pub mod fresh; // fresh.rt: the call fresh
pub mod looking; // looking.rt: each call that only looks
pub mod looks; // looks.rt: the choice of the course for a look
pub mod on_table; // on_table.rt: the choice of the course for a call that writes
pub mod writing; // writing.rt: each call that writes a table
