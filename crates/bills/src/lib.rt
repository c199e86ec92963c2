// The rental bill (02, U14): what boxes and updates cost. Knows no table.
#![tactic(auto)]

pub mod bill; // bill.rt: the bill, from how many boxes and updates there were
