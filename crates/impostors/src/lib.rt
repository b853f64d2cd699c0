// None of the impostors meets the contract of a call; the theorems stand in proofs/, and nothing here computes.
#![tactic(auto)]
