// The value column of the branches that run downward.

ghost use Rattle.std.specs.Prelude.{◌≡◌, true, ◌+◌, ◌≤◌, length, min};
ghost use Rattle.rungs.specs.Rungs.{descent, downward_rung, scaled_rung};
ghost use Rattle.slots.specs.Slots.{filled};
ghost use Rattle.value_column.specs.OverSlots.{scaled_by};
ghost use Rattle.value_column.specs.ValueColumn.{room_up_to};

use order::{Adjacent, Rung, Rungs, Sequence};

// Works out rungs top - 1 to 0, each from the two above it, and stores those that have a slot. At first `two` are the
// values of rungs top and top + 1. No counter passes 1101. The rungs without a slot have a loop of their own, so that
// neither loop tests for one.
fn descend(t: &mut [f64], sequence: Sequence, top: Rung, mut two: Adjacent)
    requires { top ≤ 1101 }
    ensures { t.new ≡ filled (descent sequence top two.low two.high) 0 0 (min top (length t.old)) t.old }
{
    let stored = t.len().min(top as usize) as Rung;
    for k in (stored..top).rev() {
        two = two.down(recurrence::step_down(sequence, k, two));
    }
    for k in (0..stored).rev() {
        let value = recurrence::step_down(sequence, k, two);
        t[k as usize] = value;
        two = two.down(value);
    }
}

// Multiplies each slot by s.
fn scale(t: &mut [f64], s: f64)
    ensures { t.new ≡ filled (scaled_by s t.old) 0 0 (length t.old) t.old }
{
    for value in t {
        *value *= s;
    }
}

// Stores rungs 0 to n, from rungs n and n - 1 down.
pub(crate) fn downward(t: &mut [f64], rungs: Rungs)
    requires { room_up_to rungs.n (length t.old) ≡ true }
    ensures { t.new ≡ filled (downward_rung rungs.sequence rungs.u rungs.n) 0 0 (rungs.n + 1) t.old }
{
    let two = rungs::top_rungs(rungs);
    let last = rungs.n as usize;
    t[last] = two.high;
    t[last - 1] = two.low;
    descend(t, rungs.sequence, rungs.n - 1, two);
}

// The rung in whose place the seed stands. No counter of a table is larger.
fn seed_rung(n: Rung) -> Rung
    requires { n ≤ 1000 }
    ensures { result ≡ n + 101 }
{
    n + 101
}

// Stores rungs 0 to n, worked out from 100 + n down and then scaled.
pub(crate) fn scaled(t: &mut [f64], rungs: Rungs)
    requires { room_up_to rungs.n (length t.old) ≡ true }
    ensures { t.new ≡ filled (scaled_rung rungs.sequence rungs.n) 0 0 (rungs.n + 1) t.old }
{
    let Rungs { sequence, n, .. } = rungs;
    let column = &mut t[..=n as usize];
    let seeds = Adjacent {
        low: rungs::seed(sequence.function),
        high: 0.0,
    };
    descend(column, sequence, seed_rung(n), seeds);
    let s = rungs::start_value(sequence, sequence.f) / column[0];
    scale(column, s);
}
