// The column reader: a part of one of the two tables that the caller lends, of any lengths. Each public function
// answers every input.

#![tactic(auto)]

mod numbers;

ghost use Rattle.std.specs.Prelude.{◌≡◌};
ghost use Rattle.ladder_reader.specs.Columns.{named, first_slots};

pub use numbers::{UnknownColumn, column_length};

// One of the two tables. The numbers are those of the C interface.
#[derive(Clone, Copy, PartialEq, Eq)]
pub enum Column {
    Values = 1,
    Derivatives = 2,
}

// The first c slots of the table named, or none where it has fewer.
pub fn read_column<'a>(
    values: &'a [f64],
    derivatives: &'a [f64],
    which: Column,
    c: usize,
) -> &'a [f64]
    ensures { result.now ≡ first_slots c (named which values.now derivatives.now) }
{
    let table = match which {
        Column::Values => values,
        Column::Derivatives => derivatives,
    };
    table.get(..c).unwrap_or(&[])
}
