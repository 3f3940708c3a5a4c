// Definitions alone: the tracks of a drive, the delay to a sector, and the places that a commit takes; and the rows that a wrong one
// runs into. There is no code here.
#![tactic(auto)]
