// Theorems about whole days: definitions and proofs, no code; no code depends on it.
#![tactic(auto)]
