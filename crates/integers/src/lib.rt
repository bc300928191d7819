// Theory only: the laws of the whole numbers that the crates above cite. No code.
#![tactic(auto)]
