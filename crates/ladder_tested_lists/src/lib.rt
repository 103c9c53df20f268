// #102, the tested reader after every list of requests to a ladder, and on every state.

#![tactic(auto)]

ghost use Rattle.ladder_tested_lists.specs.TestedLists.{TestedReader};

// The theorem about the tested reader. The statement is specs/TestedLists.antt, the proof proofs/Lists.antt.
#[tactic(auto, using(crate::proofs::Lists::tested_reader_law))]
pub fn tested_reader()
    ensures { TestedReader }
{}
