// Text put into a lent buffer: bytes, and decimal numbers. Knows no day.
#![tactic(auto)]

pub mod number; // number.rt: a decimal number and the byte behind it
pub mod put; // put.rt: bytes from a place on
