// The true best beside the average plan: no code. What is shown is in specs/Between and proofs/.
#![tactic(auto)]
