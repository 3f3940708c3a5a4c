// Definitions alone: the bytes of a sector. There is no code here.
#![tactic(auto)]
