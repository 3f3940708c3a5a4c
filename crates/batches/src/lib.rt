// A batch of commits: its definition, and the rows that a wrong one runs into. There is no code here.
#![tactic(auto)]
