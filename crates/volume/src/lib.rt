// Definitions alone: the tables and the calls; and the rows that a wrong one runs into. There is no code here.
#![tactic(auto)]
