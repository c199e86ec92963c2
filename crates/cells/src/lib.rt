// The cells of the table's lower part: what its bytes mean and what each step writes. Definitions and laws, no code.
#![tactic(auto)]
