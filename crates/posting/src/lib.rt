// What a step brings to the main revision, posted on the announcer's board (02, U10). The calls stand above.
#![tactic(auto)]

pub mod brought; // brought.rt: the updates brought, found along the links and posted in listed order
