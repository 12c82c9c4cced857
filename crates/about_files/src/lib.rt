// Theorems on the definitions in `rules`: reading is exact, and the writer is its inverse. There is no code here.
#![tactic(auto)]
