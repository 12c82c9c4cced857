// The theorem about every list of calls: specs/ has its statement, proofs/ its proof. There is no code here.
#![tactic(auto)]
