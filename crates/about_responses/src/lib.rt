// Theorems on whole responses: they are read exactly, the lowest cause that applies refuses them, every lawful schedule has one. There is no code here.
#![tactic(auto)]
