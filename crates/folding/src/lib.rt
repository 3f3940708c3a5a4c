// Two commits at full size, computed: 24 branches are listed, 25 fold. There is no code here.
#![tactic(auto)]
