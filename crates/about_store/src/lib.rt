// Pool and store together agree with the plain machine's list of accepted files: specs/ says what that means, proofs/ has its laws. There is no code here.
#![tactic(auto)]
