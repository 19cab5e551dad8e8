// What sheets, lists and answers mean: definitions in specs/, their laws in proofs/, no code.
#![tactic(auto)]
