// The column reader, and the tested reader.

ghost use Rattle.std.specs.Prelude.{◌≡◌, length};
ghost use Rattle.ladder_reader.specs.Numbers.{column_in};
ghost use Rattle.gozhnerim_parts.specs.Parts.{tested_in_c};

use gozhnerim_parts::{GozhnerimPart, tested_part};
use gozhnerim_structs::GozhnerimLadder;
use ladder_reader::column_length;

#[unsafe(no_mangle)]
pub extern "C" fn gozhnerim_column<'a>(
    values: &'a [f64],
    derivatives: &'a [f64],
    which: u32,
    c: usize,
) -> usize
    ensures { result ≡ length (column_in which c values.now derivatives.now) }
{
    column_length(values, derivatives, which, c)
}

#[unsafe(no_mangle)]
pub extern "C" fn gozhnerim_tested_column<'a>(
    held: GozhnerimLadder,
    values: &'a [f64],
    derivatives: &'a [f64],
    which: u32,
) -> GozhnerimPart
    ensures { result ≡ tested_in_c held which values.now derivatives.now }
{
    tested_part(held, values, derivatives, which)
}
