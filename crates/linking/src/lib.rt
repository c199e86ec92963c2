// Own lists on the first 40,960 bytes of a table: an update appended, and a joinee's list spliced on. The steps stand above.
#![tactic(auto)]

pub mod own; // own.rt: own lists and their links written
