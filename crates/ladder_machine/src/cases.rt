// Which case an accepted request is.

#![tactic(auto, using(crate::proofs::Tests::tests), unfolding(crate::specs::Held::verdict_of))]

ghost use Rattle.std.specs.Prelude.{◌≡◌, false, Ok};
ghost use Rattle.std.specs.Float.Ieee.{is_nan};
ghost use Rattle.ladder_machine.specs.Machine.{bits_of, same_rungs, may_climb, case_by};
ghost use Rattle.ladder_machine.specs.Held.{counts_empty, held_forward, machine_of, verdict_of};

use crate::{Case, Held};
use order::{Rung, Sequence};
use signs::{abs, alike};

impl Held {
    // Whether a state with these fields counts as empty.
    pub fn counts_empty(self) -> bool
        ensures { result ≡ counts_empty self }
    {
        let Sequence { x, f, .. } = self.sequence;
        self.n == 0 || self.n > 1000 || x.is_nan() || f.is_nan() || 1.0 <= abs(f)
    }

    // Whether the held branch runs forward.
    pub fn runs_forward(self) -> bool
        ensures { result ≡ held_forward self }
    {
        branches::runs_forward(self.sequence, f64::from(self.n) + self.sequence.f)
    }

    // Whether rungs up to n may go on from those held.
    fn may_climb(self, n: Rung) -> bool
        ensures { result ≡ may_climb self.sequence.function self.sequence.below
            (bits_of self.sequence.x) (bits_of self.sequence.f) self.n n }
    {
        self.n < n && 2 <= self.n && self.runs_forward()
    }
}

// Whether both are for the same function, side, argument and fraction, the last two by their bits.
fn same_rungs(held: Sequence, asked: Sequence) -> bool
    requires held_argument { is_nan held.x ≡ false }
    requires held_fraction { is_nan held.f ≡ false }
    requires argument { is_nan asked.x ≡ false }
    requires fraction { is_nan asked.f ≡ false }
    ensures { result ≡ same_rungs held.function held.below (bits_of held.x) (bits_of held.f)
        asked.function asked.below (bits_of asked.x) (bits_of asked.f) }
{
    held.function == asked.function
        && held.below == asked.below
        && alike(held.x, asked.x)
        && alike(held.f, asked.f)
}

// The case of a request for rungs 0 to n of a sequence.
pub(crate) fn case_of(held: Held, asked: Sequence, n: Rung) -> Case
    requires argument { is_nan asked.x ≡ false }
    requires fraction { is_nan asked.f ≡ false }
    ensures { verdict_of (Ok result)
        ≡ case_by (machine_of held) asked.function asked.below (bits_of asked.x) (bits_of asked.f) n }
{
    if held.counts_empty() || !same_rungs(held.sequence, asked) {
        Case::StartOver(n)
    } else if held.n == n {
        Case::Repeat(n)
    } else if held.may_climb(n) {
        Case::Climb {
            from: held.n,
            to: n,
        }
    } else {
        Case::StartOver(n)
    }
}
