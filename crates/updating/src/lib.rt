// What a client enters: updates, and the end of its transaction.
#![tactic(auto)]

pub mod room; // room.rt: whether a log has room for one more
pub mod update; // update.rt: the call update
pub mod yields; // yields.rt: the end of a transaction
