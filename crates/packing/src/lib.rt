// What a call answers in one number, for C and Rust. The calls stand above.
#![tactic(auto)]

pub mod pack; // pack.rt: a reply packed
