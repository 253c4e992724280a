// What a best plan is. This crate has no code: its definitions stand in specs/, what follows from them in proofs/.
#![tactic(auto)]
