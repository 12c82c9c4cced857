// Laws that several crates need and none of them owns: tests joined, lists of bytes, and what a test of `rules` says, fact by fact. There is no code here.
#![tactic(auto)]
