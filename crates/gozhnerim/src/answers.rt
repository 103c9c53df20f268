// The requests that hold nothing: the table calls, the expansion and the Maclaurin series. D and V have a name each, as
// include/gozhnerim.h declares them.

ghost use Rattle.std.specs.Prelude.{◌≡◌, length};
ghost use Rattle.floats.specs.declared.Function.TheVariants.{D, «V»};
ghost use Rattle.tables.specs.Tables.{refusal, table_after, answer};
ghost use Rattle.expansion.specs.Expansion as expanded;
ghost use Rattle.maclaurin.specs.Maclaurin as maclaurin;
ghost use Rattle.gozhnerim_structs.specs.Answers.{answer_of};

use answer::Pair;
use floats::Function;
use gozhnerim_structs::GozhnerimAnswer;
use mul_exp::Mantissas;

#[unsafe(no_mangle)]
pub extern "C" fn gozhnerim_d_table(v: f64, x: f64, table: &mut [f64]) -> GozhnerimAnswer
    ensures answer { result ≡ answer_of (refusal v x (length table.old)) (answer D v x (length table.old)) }
    ensures table { table.new ≡ table_after D v x table.old }
{
    gozhnerim_answers::table(Function::D, v, x, table)
}

#[unsafe(no_mangle)]
pub extern "C" fn gozhnerim_v_table(v: f64, x: f64, table: &mut [f64]) -> GozhnerimAnswer
    ensures answer { result ≡ answer_of (refusal v x (length table.old)) (answer «V» v x (length table.old)) }
    ensures table { table.new ≡ table_after «V» v x table.old }
{
    gozhnerim_answers::table(Function::V, v, x, table)
}

#[unsafe(no_mangle)]
pub extern "C" fn gozhnerim_d_expansion(v: f64, x: f64) -> GozhnerimAnswer
    ensures { result ≡ answer_of (expanded.refusal v x) (expanded.answer v x) }
{
    gozhnerim_answers::d_expansion(v, x)
}

#[unsafe(no_mangle)]
pub extern "C" fn gozhnerim_maclaurin(a: f64, x: f64, c0: f64, c1: f64, e: f64) -> GozhnerimAnswer
    ensures { result ≡ answer_of (maclaurin.refusal a x c0 c1 e) (maclaurin.answer a x c0 c1 e) }
{
    let start = Mantissas {
        pair: Pair {
            value: c0,
            derivative: c1,
        },
        exponent: e,
    };
    gozhnerim_answers::maclaurin(a, x, start)
}
