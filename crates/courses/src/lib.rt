// Days of four tables and one log (02, U12): theorems, no code.
#![tactic(auto)]
