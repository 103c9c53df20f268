// What an order needs, as a struct of C.

ghost use Rattle.std.specs.Prelude.{◌≡◌};
ghost use Rattle.answer.specs.Answer.{number};
ghost use Rattle.gozhnerim_told.specs.Orders.{refused_order, accepted_order, order_in};

use crate::GozhnerimOrder;
use answer::Refusal;
use order::Order;

impl From<Refusal> for GozhnerimOrder {
    ghost from_gives = { λ refusal order. order ≡ refused_order (number refusal) };

    #[tactic(auto, using(floats::proofs::Values::nan_is), unfolding(crate::specs::Orders::refused_order))]
    fn from(refusal: Refusal) -> GozhnerimOrder {
        GozhnerimOrder {
            refusal: u32::from(refusal),
            below_zero: 0,
            n: 0,
            num: 0,
            table_slots: 0,
            value_slots: 0,
            derivative_slots: 0,
            f: f64::NAN,
        }
    }
}

#[tactic(auto, using(gozhnerim_structs::proofs::Laws::side_told), unfolding(crate::specs::Orders::accepted_order))]
fn accepted(v: f64) -> GozhnerimOrder
    ensures { result ≡ accepted_order v }
{
    let Order { below, f, n, .. } = order::split(v);
    let num = order::num(v);
    let top = n as usize;
    GozhnerimOrder {
        refusal: 0,
        below_zero: u32::from(below),
        n,
        num,
        table_slots: 2 * num as usize,
        value_slots: top + 1,
        derivative_slots: top,
        f,
    }
}

// What a request for the order v needs, or the number that refuses it for every argument that is a number.
#[tactic(auto, using(crate::proofs::Told::order_laws), unfolding(crate::specs::Orders::order_in))]
pub fn order_of(v: f64) -> GozhnerimOrder
    ensures { result ≡ order_in v }
{
    // The argument 0 is a number: what is left is what the order alone is refused for.
    match table_refusals::check(v, 0.0) {
        Ok(()) => accepted(v),
        Err(refusal) => GozhnerimOrder::from(refusal),
    }
}
