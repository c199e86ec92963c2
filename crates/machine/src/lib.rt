// The machine of a day of revisions that a table can keep, and the theorem that it follows every run: no code.
#![tactic(auto)]
