// Reading and writing a routine text undo each other; the theorems stand in proofs/, and nothing here computes.
#![tactic(auto)]
