// Whole histories: the claim, and its proof. There is no code here.
#![tactic(auto)]
