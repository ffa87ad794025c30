// What a history is: events on a chain of any modules, and exported calls on a lent record. No code.

#![tactic(auto)]
