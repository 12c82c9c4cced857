// The theorem about every list of calls for firmware in C, and what the contracts of the exported functions that take or make a unit say. There is no code here.
#![tactic(auto)]
