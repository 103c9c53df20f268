// Demand 3, every list of requests to a ladder, and 01's examples.

#![tactic(auto)]

ghost use Rattle.ladder_lists.specs.Demand3.{Demand3};
ghost use Rattle.ladder_lists.specs.Examples.{Examples};

// The theorem about every list of requests, and about every state handed in. The statement is specs/Demand3.antt, the
// proof proofs/Lists.antt.
pub fn demand_three()
    ensures { Demand3 }
{}

// The theorem about P1 to P12. The list is specs/Examples.antt, the proof proofs/Values.antt.
pub fn examples()
    ensures { Examples }
{}
