// The rungs of D and V: which they are, and the values that they start from. Each public function answers every input.

#![tactic(auto)]

mod start;

ghost use Rattle.rungs.specs.Source.{AsSource};

pub use start::{seed, start_rungs, start_value, top_rungs};

// The theorem that the values of a table are those of the source's text. The statement is specs/Source.antt, the proof
// proofs/Source.antt.
#[tactic(auto, using(crate::proofs::Source::as_source))]
pub fn as_source()
    ensures { AsSource }
{}
