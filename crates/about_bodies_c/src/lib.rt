// The theorem about a body that C reads, takes apart and writes again, and what the contracts of the exported functions on files say. There is no code here.
#![tactic(auto)]
