// The call bundle for callers that have entries and not records.
#![tactic(auto)]

pub mod lent; // lent.rt: the call bundle on a lent list of entries
