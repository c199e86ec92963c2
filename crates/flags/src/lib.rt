// Rows of 64 flags packed in bytes: loaded as arrays of eight bytes a row, changed by value as a fork, a join or an event changes them,
// stored (01: "Rows of marks by value, an array of arrays, box against box"). Knows no offset.
#![tactic(auto)]

pub mod bits; // bits.rt: eight flags as a byte
pub mod change; // change.rt: what a fork and a join make of the flags, by value
pub mod packed; // packed.rt: the same on packed flags
pub mod rows; // rows.rt: rows loaded from bytes and stored
pub mod words; // words.rt: a row as one number
