// The tested reader in C: an exported function cannot hand a slice back. It gives the refusal's number and the length
// of the part, which begins at the first slot of the table named. Each public function answers every input.

#![tactic(auto)]

ghost use Rattle.std.specs.Prelude.{◌≡◌};
ghost use Rattle.answer.specs.Answer.{refusal_of};
ghost use Rattle.ladder_reader.specs.Numbers.{column_of};
ghost use Rattle.ladder_tested_reader.specs.Tested.{tested};
ghost use Rattle.gozhnerim_parts.specs.Parts.{slots_in, slots_of, part_named, tested_in_c};
ghost use Rattle.gozhnerim_parts.specs.TestedInC.{TestedReaderInC};

use answer::Refusal;
use gozhnerim_structs::GozhnerimLadder;
use ladder_machine::Held;
use ladder_reader::Column;
use ladder_states::Ladder;
use ladder_tested_reader::{test, tested_column};

// A part of a column, as include/gozhnerim.h declares it. On a refusal the length is 0.
#[repr(C)]
#[derive(Clone, Copy)]
pub struct GozhnerimPart {
    pub refusal: u32,
    pub length: usize,
}

// How many slots of the column named are lent. Which is 1 for the values and 2 for the derivatives; with any other
// number both tables are tested all the same, and none is lent.
#[tactic(auto, using(crate::proofs::Laws::lent_laws), unfolding(crate::specs::Parts::part_named))]
fn slots_lent(held: Held, values: &[f64], derivatives: &[f64], which: u32) -> Result<usize, Refusal>
    ensures number { refusal_of result ≡ tested held values.now derivatives.now }
    ensures slots { slots_in result ≡ slots_of (part_named (column_of which) held values.now derivatives.now) }
{
    let Ok(column) = Column::try_from(which) else {
        test(held, values, derivatives)?;
        return Ok(0);
    };
    let part = tested_column(held, values, derivatives, column)?;
    Ok(part.len())
}

// The reader: the refusal's number and the length of the part.
#[tactic(auto, using(crate::proofs::Laws::part_laws), unfolding(crate::specs::Parts::tested_in_c))]
pub fn tested_part(
    held: GozhnerimLadder,
    values: &[f64],
    derivatives: &[f64],
    which: u32,
) -> GozhnerimPart
    ensures { result ≡ tested_in_c held which values.now derivatives.now }
{
    let held = Ladder::from(held).held;
    match slots_lent(held, values, derivatives, which) {
        Ok(length) => GozhnerimPart { refusal: 0, length },
        Err(refusal) => GozhnerimPart {
            refusal: u32::from(refusal),
            length: 0,
        },
    }
}

// The theorem about the reader after every list of ladder requests over the C interface, and on every state. The
// statement is specs/TestedInC.antt, the proof proofs/InC.antt.
#[tactic(auto, using(crate::proofs::InC::tested_reader_in_c_law))]
pub fn tested_reader_in_c()
    ensures { TestedReaderInC }
{}
