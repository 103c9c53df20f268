// A ladder's request in C, which the contracts of `gozhnerim` cite (specs/Requests.antt), and demand 3 over lists of
// them.

#![tactic(auto)]

mod requests;

ghost use Rattle.gozhnerim_lists.specs.Lists.{Demand3InC};

pub use requests::request_in_c;

// The theorem about every list of ladder requests over the C interface. The statement is specs/Lists.antt, the proof
// proofs/Demand3InC.antt.
#[tactic(auto, using(crate::proofs::Demand3InC::demand3_in_c))]
pub fn demand_three_in_c()
    ensures { Demand3InC }
{}
