// What the regulator demands of a step-motor module on the network: statements in specs/, theorems in proofs/. No code.

#![tactic(auto)]
