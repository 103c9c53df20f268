// The slots of a lent table, as the contracts speak of them. It has no function.

#![tactic(auto)]
