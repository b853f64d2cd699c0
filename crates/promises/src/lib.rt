// One page of what is promised, theorem by theorem in the order of the demands; it stands in proofs/, and nothing here computes.
#![tactic(auto)]
