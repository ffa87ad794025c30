// What each exported call gives back and leaves behind. Definitions and promises; no function.

#![tactic(auto)]
