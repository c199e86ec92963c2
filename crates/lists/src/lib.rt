// Lists of numbers, for the crates above: definitions and laws, no code.
#![tactic(auto)]
