// When two floats are mirror images of each other. It has no function.

#![tactic(auto)]
