// What the regulator demands of the whole network: statements in specs/, theorems in proofs/. No code.

#![tactic(auto)]
