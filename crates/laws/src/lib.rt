// Laws of the definitions, which the proofs of the code and the theorem about histories cite. There is no code here.
#![tactic(auto)]
