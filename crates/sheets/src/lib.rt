// The listing of numbered entries, twelve bytes each, into a lent sheet. Knows no revision.
#![tactic(auto)]

pub mod lines; // lines.rt: the lines of some numbers put into a sheet
