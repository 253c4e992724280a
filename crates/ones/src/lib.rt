// All weights 1: no code. What is shown is in specs/Ones and proofs/Same.
#![tactic(auto)]
