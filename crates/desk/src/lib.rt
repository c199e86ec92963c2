// 01's table of codes as data, and the calls that it is about: definitions and laws, no code.
#![tactic(auto)]
