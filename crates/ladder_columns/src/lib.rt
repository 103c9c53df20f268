// The two columns in two slices that the caller lends, of any lengths: values in one and derivatives in the other.

#![tactic(auto)]

ghost use Rattle.std.specs.Prelude.{◌≡◌, ◌≤◌, ◌<◌, length};
ghost use Rattle.slots.specs.Slots.{filled};
ghost use Rattle.value_column.specs.OverSlots.{derivative_over};
ghost use Rattle.ladder_columns.specs.Columns.{room_for, value_column, derivative_column};

use order::{Adjacent, Rung, Rungs, Sequence};
use value_column::fill_values;

// Stores n derivatives, over the values of another table.
fn fill_derivatives_over(values: &[f64], derivatives: &mut [f64], sequence: Sequence, n: Rung)
    requires most { n ≤ 1000 }
    requires values { n < length values.now }
    requires room { n ≤ length derivatives.old }
    ensures { derivatives.new
        ≡ filled (derivative_over sequence values.now) 0 0 n derivatives.old }
{
    // By index: `enumerate` proves too, but its counter is a usize; over `values.array_windows::<2>()` tables take up to
    // 1.05 times as long, and a `zip` of `iter_mut` with the windows leaves the goal `returns` open.
    for k in 0..n {
        let at = k as usize;
        let two = Adjacent {
            low: values[at],
            high: values[at + 1],
        };
        derivatives[at] = derivatives::derivative(sequence, k, two);
    }
}

// Whether columns of these lengths hold rungs 0 to n.
#[tactic(auto, using(std::proofs::lemmas::Bool::Decides::nat_tests), unfolding(crate::specs::Columns::room_for))]
fn has_room(n: Rung, values: usize, derivatives: usize) -> bool
    ensures { result ≡ room_for n values derivatives }
{
    value_column::has_room(n, values) && n as usize <= derivatives
}

// Stores values 0 to n in one table and derivatives 0 to n - 1 in another. Where a table is too short, or n is not 1 to
// 1000, nothing is stored.
#[tactic(auto, using(crate::proofs::Columns::column_laws))]
pub fn fill_columns(values: &mut [f64], derivatives: &mut [f64], rungs: Rungs)
    ensures values { values.new
        ≡ value_column rungs.sequence rungs.u rungs.n values.old (length derivatives.old) }
    ensures derivatives { derivatives.new
        ≡ derivative_column rungs.sequence rungs.u rungs.n (length values.old) derivatives.old }
{
    if has_room(rungs.n, values.len(), derivatives.len()) {
        fill_values(values, rungs);
        fill_derivatives_over(values, derivatives, rungs.sequence, rungs.n);
    }
}
