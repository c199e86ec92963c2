// A course's table beside the other three (02, U12): what is asked of those, and what a call answers. The calls stand above.
#![tactic(auto)]

pub mod number; // number.rt: 1 of the number of a course
pub mod others; // others.rt: 1 of the other three tables, and the room that they leave
pub mod reply; // reply.rt: what a call on four tables answers
