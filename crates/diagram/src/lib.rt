// Revision diagrams, the plain day of revisions and one arbitration order: definitions and theorems, no code.
#![tactic(auto)]
