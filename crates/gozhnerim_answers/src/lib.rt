// The requests that hold nothing, with an answer of C: the table calls, the expansion and the Maclaurin series. Each
// public function answers every input.

#![tactic(auto)]

ghost use Rattle.std.specs.Prelude.{◌≡◌, length};
ghost use Rattle.tables.specs.Tables.{refusal, table_after, answer};
ghost use Rattle.expansion.specs.Expansion as expanded;
ghost use Rattle.maclaurin.specs.Maclaurin as maclaurin;
ghost use Rattle.gozhnerim_structs.specs.Answers.{answer_of};

use floats::Function;
use gozhnerim_structs::GozhnerimAnswer;
use mul_exp::Mantissas;

pub fn table(function: Function, v: f64, x: f64, table: &mut [f64]) -> GozhnerimAnswer
    ensures answer { result ≡ answer_of (refusal v x (length table.old)) (answer function v x (length table.old)) }
    ensures table { table.new ≡ table_after function v x table.old }
{
    GozhnerimAnswer::from(tables::table(function, v, x, table))
}

pub fn d_expansion(v: f64, x: f64) -> GozhnerimAnswer
    ensures { result ≡ answer_of (expanded.refusal v x) (expanded.answer v x) }
{
    GozhnerimAnswer::from(expansion::d_expansion(v, x))
}

pub fn maclaurin(a: f64, x: f64, start: Mantissas) -> GozhnerimAnswer
    ensures { result ≡ answer_of
        (maclaurin.refusal a x start.pair.value start.pair.derivative start.exponent)
        (maclaurin.answer a x start.pair.value start.pair.derivative start.exponent) }
{
    GozhnerimAnswer::from(maclaurin::maclaurin(a, x, start))
}
