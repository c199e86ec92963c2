// A bundle of updates as a client sends it (02, U4): its records of twelve bytes, and the entries they hold. Knows no table.
#![tactic(auto)]

pub mod sizes; // sizes.rt: the sizes of a bundle and of its records
pub mod entry; // entry.rt: an update as it is sent
pub mod record; // record.rt: a record read, and a record put
pub mod check; // check.rt: the records that the bytes are
pub mod pack; // pack.rt: a lent list of entries put as records
