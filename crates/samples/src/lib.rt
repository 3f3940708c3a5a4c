// The sample volumes of document 01, computed from the definitions. There is no code here.
#![tactic(auto)]
