// The definitions of docs/SPECIFICATION.md stand in specs/ and the theorems about them in proofs/; nothing here computes.
#![tactic(auto)]
