// Both columns in one slice that the caller lends, of any length.

#![tactic(auto)]

ghost use Rattle.std.specs.Prelude.{◌≡◌};
ghost use Rattle.table_columns.specs.TableColumns.{room_in, both_columns};

use ladder_columns::fill_columns;
use order::{Rung, Rungs};
use recurrence::has_own_rung_two;

// Whether a table of this length holds both columns, the derivatives from slot num on.
#[tactic(auto, using(std::proofs::lemmas::Bool::Decides::nat_tests), unfolding(crate::specs::TableColumns::room_in))]
fn has_table_room(n: Rung, num: Rung, slots: usize) -> bool
    ensures { result ≡ room_in n num slots }
{
    value_column::has_room(n, num as usize) && num >= 3 && 2 * num as usize <= slots
}

// Stores values from slot 0 on, value 2 with its own formula too, and derivatives from slot num on, in one table. Where
// it is too short for num slots to a column, or n is not 1 to 1000 and below num, nothing is stored.
#[tactic(auto, using(crate::proofs::Tables::table_cases))]
pub fn fill_table(t: &mut [f64], rungs: Rungs, num: Rung)
    ensures { t.new ≡ both_columns rungs.sequence rungs.u rungs.n num t.old }
{
    if has_table_room(rungs.n, num, t.len()) {
        let (values, derivatives) = t.split_at_mut(num as usize);
        fill_columns(values, derivatives, rungs);
        if rungs.n == 1 && has_own_rung_two(rungs.sequence) {
            values[2] = rungs.sequence.x * values[1];
        }
    }
}
