// Why blocks in a row keep every list in order when one block moves: definitions and laws, no code.
#![tactic(auto)]
