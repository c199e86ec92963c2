// The updates visible at a revision, in the order in which a listing has them. Reads the cells, and writes none.
#![tactic(auto)]

pub mod links; // links.rt: own lists, gathered along their links
pub mod visible; // visible.rt: what a revision inherited, and its own list
pub mod whole; // whole.rt: whether no entry of an order is cut off
