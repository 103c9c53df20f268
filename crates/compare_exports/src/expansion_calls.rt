// The functions below the expansion and the Maclaurin series.

ghost use Rattle.std.specs.Prelude.{◌≡◌, not, eqb};
ghost use Rattle.gamma_ratio.specs.GammaRatio.{log1pmx, lgam_stirling_corr, ln_gamma_ratio};
ghost use Rattle.mul_exp.specs.MulExp.{mul_exp};
ghost use Rattle.expansion_polynomials.specs.Polynomials.{uv_poly, u_sum, v_sum};
ghost use Rattle.expansion_elementary.specs.Mantissas.{mantissas};

use expansion_polynomials::Sums;
use mul_exp::Mantissas;

// The sums of u_s and of v_s. A struct of C.
#[repr(C)]
#[derive(Clone, Copy)]
pub struct ComparedSums {
    pub u: f64,
    pub v: f64,
}

impl From<Sums> for ComparedSums {
    ghost from_gives = { λ sums compared. (compared.u ≡ sums.u) × (compared.v ≡ sums.v) };

    fn from(sums: Sums) -> ComparedSums {
        let Sums { u, v } = sums;
        ComparedSums { u, v }
    }
}

// D and its derivative as mantissas with one exponent. A struct of C.
#[repr(C)]
#[derive(Clone, Copy)]
pub struct ComparedMantissas {
    pub value: f64,
    pub derivative: f64,
    pub exponent: f64,
}

impl From<Mantissas> for ComparedMantissas {
    ghost from_gives = { λ mantissas compared. (compared.value ≡ mantissas.pair.value)
        × (compared.derivative ≡ mantissas.pair.derivative)
        × (compared.exponent ≡ mantissas.exponent) };

    fn from(mantissas: Mantissas) -> ComparedMantissas {
        let Mantissas { pair, exponent } = mantissas;
        ComparedMantissas {
            value: pair.value,
            derivative: pair.derivative,
            exponent,
        }
    }
}

#[unsafe(no_mangle)]
pub extern "C" fn compared_log1pmx(w: f64) -> f64
    ensures { result ≡ log1pmx w }
{
    gamma_ratio::log1pmx(w)
}

#[unsafe(no_mangle)]
pub extern "C" fn compared_lgam_stirling_corr(x: f64) -> f64
    ensures { result ≡ lgam_stirling_corr x }
{
    gamma_ratio::lgam_stirling_corr(x)
}

#[unsafe(no_mangle)]
pub extern "C" fn compared_ln_gamma_ratio(z: f64) -> f64
    ensures { result ≡ ln_gamma_ratio z }
{
    gamma_ratio::ln_gamma_ratio(z)
}

#[unsafe(no_mangle)]
pub extern "C" fn compared_mul_exp(m: f64, e: f64) -> f64
    ensures { result ≡ mul_exp m e }
{
    mul_exp::mul_exp(m, e)
}

// bar is false where it is 0, and true where it is any other number: C may hand over any.
#[unsafe(no_mangle)]
pub extern "C" fn compared_uv_poly(p: &[f64], s: u32, t: f64, bar: u32) -> f64
    ensures { result ≡ uv_poly p.now s t (not (eqb bar 0)) }
{
    expansion_polynomials::uv_poly(p, s, t, bar != 0)
}

#[unsafe(no_mangle)]
pub extern "C" fn compared_uv_sums(t: f64, w: f64) -> ComparedSums
    ensures u { result.u ≡ u_sum t w }
    ensures v { result.v ≡ v_sum t w }
{
    ComparedSums::from(expansion_polynomials::uv_sums(t, w))
}

#[unsafe(no_mangle)]
pub extern "C" fn compared_pbdv_elementary(v: f64, x: f64) -> ComparedMantissas
    ensures value { result.value ≡ (mantissas v x).0 }
    ensures derivative { result.derivative ≡ (mantissas v x).1 }
    ensures exponent { result.exponent ≡ (mantissas v x).2 }
{
    ComparedMantissas::from(expansion_elementary::pbdv_elementary(v, x))
}
