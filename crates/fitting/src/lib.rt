// The question whether something fits beside the planning calls: no code. What is shown is in specs/Fitting and proofs/.
#![tactic(auto)]
