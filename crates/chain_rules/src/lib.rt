// What holds of a chain of modules of any type: definitions in specs/, theorems in proofs/. No code.

#![tactic(auto)]
