// The column reader in C: an exported function cannot hand a slice back. It gives the length of the part, which begins
// at the first slot of the table named.

#![tactic(auto, using(std::proofs::lemmas::Bool::Decides::nat_tests))]

ghost use Rattle.std.specs.Prelude.{◌≡◌, length, MatchResult};
ghost use Rattle.std.proofs.Math.Option.{some, none};
ghost use Rattle.ladder_reader.specs.Numbers.{column_of, column_in};

use crate::{Column, read_column};

// A number that names neither table. Not shared with `floats::UnknownFunction`: the column reader needs no other crate.
#[derive(Clone, Copy, PartialEq, Eq, Debug)]
pub struct UnknownColumn {
    pub number: u32,
}

impl TryFrom<u32> for Column {
    type Error = UnknownColumn;

    ghost try_from_gives = { λ number r. MatchResult r (λ column. column_of number ≡ some column)
        (λ e. (e.number ≡ number) × (column_of number ≡ none)) };

    fn try_from(number: u32) -> Result<Column, UnknownColumn> {
        match number {
            1 => Ok(Column::Values),
            2 => Ok(Column::Derivatives),
            _ => Err(UnknownColumn { number }),
        }
    }
}

// Which is 1 for the values and 2 for the derivatives; any other number names neither, and its part is empty.
pub fn column_length(values: &[f64], derivatives: &[f64], which: u32, c: usize) -> usize
    ensures { result ≡ length (column_in which c values.now derivatives.now) }
{
    Column::try_from(which).map_or(0, |column| {
        read_column(values, derivatives, column, c).len()
    })
}
