// The climb of the ladder: rungs carried on from the values of two neighbouring ones, in two slices that the caller
// lends, of any lengths and content.

#![tactic(auto)]

ghost use Rattle.std.specs.Prelude.{◌≡◌, length};
ghost use Rattle.ladder_climb.specs.Climb.{room_above, top_values, climbed_values, climbed_derivatives};

use order::{Adjacent, Rung, Sequence};

// Whether tables of these lengths hold the rungs above n up to `top`.
#[tactic(auto, using(std::proofs::lemmas::Bool::Decides::nat_tests), unfolding(crate::specs::Climb::room_above))]
fn has_room(n: Rung, top: Rung, values: usize, derivatives: usize) -> bool
    ensures { result ≡ room_above n top values derivatives }
{
    let last = top as usize;
    // The lengths first, as the ladder's judgement compares them: the compiler then leaves the second comparison out.
    last < values && last <= derivatives && (1..=top).contains(&n) && top <= 1000
}

// Stores values n + 1 to `top` and derivatives n to top - 1, carried on from the values of rungs n - 1 and n, and gives
// the values of rungs top - 1 and `top`. No slot is read. Where a table is too short, or not 1 <= n <= top <= 1000,
// nothing is stored, and the values of rungs n - 1 and n are given.
#[tactic(auto, using(crate::proofs::Climbs::climbs))]
pub fn climb(
    values: &mut [f64],
    derivatives: &mut [f64],
    sequence: Sequence,
    n: Rung,
    mut two: Adjacent,
    top: Rung,
) -> Adjacent
    ensures top { (result.low, result.high)
        ≡ top_values sequence n two.low two.high top (length values.old) (length derivatives.old) }
    ensures values { values.new
        ≡ climbed_values sequence n two.low two.high top values.old (length derivatives.old) }
    ensures derivatives { derivatives.new
        ≡ climbed_derivatives sequence n two.low two.high top (length values.old) derivatives.old }
{
    if !has_room(n, top, values.len(), derivatives.len()) {
        return two;
    }
    // By index: a `zip` of the tables leaves goals of `returns` open, and `enumerate` serves one table of the two.
    for k in n + 1..top + 1 {
        let value = recurrence::step(sequence, k, two);
        two = two.up(value);
        values[k as usize] = value;
        derivatives[k as usize - 1] = derivatives::derivative(sequence, k - 1, two);
    }
    two
}
