// The polynomials u_s and v_s of DLMF 12.10, and their sums in the expansion for large negative order. Each public
// function answers every input.

#![tactic(auto)]

ghost use Rattle.std.specs.Prelude.{◌≡◌, ◌≤◌, length};
ghost use Rattle.floats.specs.Operations.{f0};
ghost use Rattle.expansion_polynomials.specs.Polynomials.{in_squares, uv_poly, row_of, summed, u_sum, v_sum};

use expansion_coefficients::COEFFICIENTS;
use floats::polevl;

// The sums of u_s and of v_s. No `Pair`: they are neither a value nor a derivative.
#[derive(Clone, Copy)]
pub struct Sums {
    pub u: f64,
    pub v: f64,
}

// A row's polynomial at t^2; or at -t^2, with the sign of i^s, where bar, the source's own parameter, is true.
#[tactic(auto, using(crate::specs::Polynomials::Open::cases))]
fn in_squares(p: &[f64], s: u32, t: f64, bar: bool) -> f64
    ensures { result ≡ in_squares p.now s t bar }
{
    if bar {
        let sign = if s / 2 % 2 == 0 { 1.0 } else { -1.0 };
        polevl(p, -t * t) * sign
    } else {
        polevl(p, t * t)
    }
}

// u_s(t) or v_s(t) by its row; or i^s u_s(-i t) where bar is true.
// bar is the source's own parameter: compare/ holds this function to the source's.
#[tactic(auto, using(crate::specs::Polynomials::Open::cases))]
pub fn uv_poly(p: &[f64], s: u32, t: f64, bar: bool) -> f64
    ensures { result ≡ uv_poly p.now s t bar }
{
    let r = in_squares(p, s, t, bar);
    if s % 2 == 1 { r * t } else { r }
}

// The sum over the eleven rows at the head of c, from the last to the first. In a loop over the rows it takes twice the
// time: where they are written out, the compiler computes both sums at once.
#[inline(always)]
fn row_sum(c: &[f64], t: f64, w: f64) -> f64
    requires { 86 ≤ length c.now }
    ensures { result ≡ summed (row_of c.now) t w 11 f0 }
{
    let mut sum = 0.0;
    sum = sum * w + uv_poly(&c[71..86], 10, t, true);
    sum = sum * w + uv_poly(&c[57..71], 9, t, true);
    sum = sum * w + uv_poly(&c[45..57], 8, t, true);
    sum = sum * w + uv_poly(&c[34..45], 7, t, true);
    sum = sum * w + uv_poly(&c[25..34], 6, t, true);
    sum = sum * w + uv_poly(&c[17..25], 5, t, true);
    sum = sum * w + uv_poly(&c[11..17], 4, t, true);
    sum = sum * w + uv_poly(&c[6..11], 3, t, true);
    sum = sum * w + uv_poly(&c[3..6], 2, t, true);
    sum = sum * w + uv_poly(&c[1..3], 1, t, true);
    sum = sum * w + uv_poly(&c[0..1], 0, t, true);
    sum
}

// The sums of i^s u_s(-i t) w^s and of i^s v_s(-i t) w^s for s up to 10.
pub fn uv_sums(t: f64, w: f64) -> Sums
    ensures u { result.u ≡ u_sum t w }
    ensures v { result.v ≡ v_sum t w }
{
    Sums {
        u: row_sum(&COEFFICIENTS, t, w),
        v: row_sum(&COEFFICIENTS[86..], t, w),
    }
}
