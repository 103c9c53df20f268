// The value column, filled in a slice that the caller lends, of any length.

#![tactic(auto, using(std::proofs::lemmas::Bool::Decides::nat_tests), unfolding(crate::specs::ValueColumn::room_up_to))]

mod downward;
mod upward;

ghost use Rattle.std.specs.Prelude.{◌≡◌};
ghost use Rattle.value_column.specs.ValueColumn.{room_up_to, all_values};

use branches::Branch;
use downward::{downward, scaled};
use order::{Rung, Rungs};
use upward::forward;

// Whether a column of this length holds rungs 0 to n, and n is 1 to 1000, as of every order.
pub fn has_room(n: Rung, slots: usize) -> bool
    ensures { result ≡ room_up_to n slots }
{
    (1..=1000).contains(&n) && (n as usize) < slots
}

// Stores values 0 to n. Where the slice is too short, or n is not 1 to 1000, nothing is stored.
// Each branch requires room for n: a type over slice and n would say no less in more words.
#[tactic(auto, using(crate::proofs::Branches::value_cases))]
pub fn fill_values(t: &mut [f64], rungs: Rungs)
    ensures { t.new ≡ all_values rungs.sequence rungs.u rungs.n t.old }
{
    if has_room(rungs.n, t.len()) {
        match branches::branch_of(rungs.sequence, rungs.u) {
            Branch::Forward => forward(t, rungs),
            Branch::Downward => downward(t, rungs),
            Branch::Scaled => scaled(t, rungs),
        }
    }
}
