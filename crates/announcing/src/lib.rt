// The calls that a board is lent to (02, U10): the call on the table, then what it brought to the main revision.
#![tactic(auto)]

pub mod bundle; // bundle.rt: the call bundle
pub mod fresh; // fresh.rt: the call fresh
pub mod join; // join.rt: the call join
pub mod sync; // sync.rt: the call sync
pub mod yields; // yields.rt: the call yield
