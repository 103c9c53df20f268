// The value column of the forward branches.

ghost use Rattle.std.specs.Prelude.{◌≡◌, true, ◌+◌, length};
ghost use Rattle.rungs.specs.Rungs.{rung};
ghost use Rattle.slots.specs.Slots.{filled};
ghost use Rattle.value_column.specs.ValueColumn.{room_up_to};

use order::Rungs;

// Stores rungs 0 to n, from rung 2 on each from the two below it.
pub(crate) fn forward(t: &mut [f64], rungs: Rungs)
    requires { room_up_to rungs.n (length t.old) ≡ true }
    ensures { t.new ≡ filled (rung rungs.sequence) 0 0 (rungs.n + 1) t.old }
{
    let Rungs { sequence, n, .. } = rungs;
    let start = rungs::start_rungs(sequence);
    t[0] = start.low;
    t[1] = start.high;
    if n < 2 {
        return;
    }
    let value = recurrence::rung_two(sequence, start);
    t[2] = value;
    let mut two = start.up(value);
    // By index: `enumerate` over t[3..] proves too, but needs k + 3; `zip` or `skip` leaves the goal `returns` open.
    for k in 3..=n {
        let value = recurrence::step(sequence, k, two);
        t[k as usize] = value;
        two = two.up(value);
    }
}
