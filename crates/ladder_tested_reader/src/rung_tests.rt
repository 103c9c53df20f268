// Whether two tables hold the rungs of a sequence: what the slots are tested against, and the loops over them.

ghost use Rattle.std.specs.Prelude.{◌≡◌, ◌+◌, ◌<◌, ◌≤◌, length};
ghost use Rattle.value_column.specs.OverSlots.{derivative_over};
ghost use Rattle.ladder_tested_reader.specs.Tested.{value_over, all_alike};

use order::{Adjacent, Rung, Sequence};
use signs::alike;

// Whether slots 0 to n hold values 0 to n: rungs 0 and 1 are worked out afresh, and each later one from the two slots
// before it.
pub(crate) fn values_alike(values: &[f64], sequence: Sequence, n: Rung) -> bool
    requires least { 1 ≤ n }
    requires most { n ≤ 1000 }
    requires room { n < length values.now }
    ensures { result ≡ all_alike (value_over sequence values.now) values.now (n + 1) }
{
    let start = rungs::start_rungs(sequence);
    if !alike(values[0], start.low) {
        return false;
    }
    if !alike(values[1], start.high) {
        return false;
    }
    if n < 2 {
        return true;
    }
    let first = Adjacent {
        low: values[0],
        high: values[1],
    };
    if !alike(values[2], recurrence::rung_two(sequence, first)) {
        return false;
    }
    for k in 3..n + 1 {
        let at = k as usize;
        let two = Adjacent {
            low: values[at - 2],
            high: values[at - 1],
        };
        if !alike(values[at], recurrence::step(sequence, k, two)) {
            return false;
        }
    }
    true
}

// Whether slots 0 to n - 1 hold the derivatives over the values of another table.
pub(crate) fn derivatives_alike(
    values: &[f64],
    derivatives: &[f64],
    sequence: Sequence,
    n: Rung,
) -> bool
    requires most { n ≤ 1000 }
    requires values { n < length values.now }
    requires room { n ≤ length derivatives.now }
    ensures { result ≡ all_alike (derivative_over sequence values.now) derivatives.now n }
{
    for k in 0..n {
        let at = k as usize;
        let two = Adjacent {
            low: values[at],
            high: values[at + 1],
        };
        if !alike(derivatives[at], derivatives::derivative(sequence, k, two)) {
            return false;
        }
    }
    true
}
