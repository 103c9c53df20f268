// The 172 coefficients of DLMF 12.10 in one table, with the theorem that they are right.

#![tactic(auto)]

mod table;

ghost use Rattle.expansion_coefficients.specs.Nearest.{TableRight};

pub use table::COEFFICIENTS;

// The theorem about the 172 coefficients. The statement is specs/Nearest.antt, the proof proofs/Rule.antt.
pub fn table_right()
    ensures { TableRight }
{}
