// An event of a client, and the end of its transaction, on the first 40,960 bytes of a table. Knows nothing of what an update does.
#![tactic(auto)]

pub mod record; // record.rt: an update or a query is recorded
pub mod transactions; // transactions.rt: open transactions
