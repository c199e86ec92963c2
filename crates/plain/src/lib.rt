// The plain day of the table: what a list of calls answers, kept on paper. Definitions and theorems, no code.
#![tactic(auto)]
