// How a run of stores under an allowance ends. There is no code here: a run's answer is an Option, which has the stores that are left, or nothing where the power failed.
#![tactic(auto)]
