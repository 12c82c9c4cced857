// Trials of the definitions in `rules`: specs/ has what they say at the edges of each rule. There is no code here.
#![tactic(auto)]
