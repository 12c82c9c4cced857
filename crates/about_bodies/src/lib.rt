// Theorems on what the functions of `records` and `writer` answer, one after the other, for a file that `rules` reads. There is no code here.
#![tactic(auto)]
