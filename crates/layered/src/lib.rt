// What a budget layer makes of the resource below it: definitions in specs, and their laws in proofs. There is no code here.

#![tactic(auto)]
