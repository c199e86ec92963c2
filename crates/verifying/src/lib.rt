// The call verify: whether an order of updates that other software made fits the table.
#![tactic(auto)]

pub mod verify; // verify.rt: the call verify
