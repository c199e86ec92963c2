// The printed day is the plain day's: a definition on paper and a theorem, no code; no code depends on it.
#![tactic(auto)]
