// The branch of a table: which of its rungs are worked out first. Each public function answers every input.

#![tactic(auto, using(crate::specs::Branches::Open::laws))]

ghost use Rattle.std.specs.Prelude.{◌≡◌};
ghost use Rattle.branches.specs.Branches.{order_is_low, runs_down, branch_of, runs_forward};
ghost use Rattle.branches.specs.As01.{BranchesAs01};

use floats::Function;
use order::Sequence;
use signs::abs;

// How the rungs are worked out: upward from rungs 0 and 1, downward from rungs n and n - 1, or downward from far above
// n and then scaled.
#[derive(Clone, Copy)]
pub enum Branch {
    Forward,
    Downward,
    Scaled,
}

// Whether u is at most x * x / 2 and the size of x at most 10.
fn order_is_low(x: f64, u: f64) -> bool
    ensures { result ≡ order_is_low x u }
{
    abs(x) <= 10.0 && u <= 0.5 * x * x
}

// Whether V from order 0 on runs downward from rungs n and n - 1.
fn runs_down(x: f64, u: f64) -> bool
    ensures { result ≡ runs_down x u }
{
    0.0 <= x && x <= 7.5 || order_is_low(x, u)
}

// The branch for a sequence and the shifted order.
pub fn branch_of(sequence: Sequence, u: f64) -> Branch
    ensures { result ≡ branch_of sequence.function sequence.below sequence.x u }
{
    let x = sequence.x; // four guards read it
    match (sequence.function, sequence.below) {
        (Function::D, false) => Branch::Forward,
        (Function::D, true) if x <= 0.0 => Branch::Forward,
        (Function::D, true) if x <= 2.0 => Branch::Downward,
        (Function::D, true) => Branch::Scaled,
        (Function::V, false) if runs_down(x, u) => Branch::Downward,
        (Function::V, false) if x > 7.5 => Branch::Scaled,
        (Function::V, false) => Branch::Forward,
        (Function::V, true) => Branch::Forward,
    }
}

// Whether the branch runs forward.
pub fn runs_forward(sequence: Sequence, u: f64) -> bool
    ensures { result ≡ runs_forward sequence.function sequence.below sequence.x u }
{
    matches!(branch_of(sequence, u), Branch::Forward)
}

// The theorem that the branches are those of 01's words and the source's. The statement is specs/As01.antt, the proof
// proofs/As01.antt.
#[tactic(auto, using(crate::proofs::As01::branches_as_01))]
pub fn as_01()
    ensures { BranchesAs01 }
{}
