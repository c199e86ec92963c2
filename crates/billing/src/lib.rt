// The call bill, above the table.
#![tactic(auto)]

pub mod bill; // bill.rt: the call bill
