// Lent bytes: numbers of several bytes, bytes cleared, and bytes put at a place. Knows no table and no file.
#![tactic(auto)]

pub mod clear; // clear.rt: every byte 0
pub mod numbers; // numbers.rt: numbers of up to four bytes
pub mod put; // put.rt: bytes copied to a place
