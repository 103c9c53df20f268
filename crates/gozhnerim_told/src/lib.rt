// What the C interface tells of an order and of a reply, and the theorems that it is what the calls test and do. Each
// public function answers every input.

#![tactic(auto)]

mod cases;
mod orders;

ghost use Rattle.gozhnerim_told.specs.Told.{OrdersTold, CasesTold};

pub use cases::case_of;
pub use orders::order_of;

// What a table call or a ladder needs for an order: the top rung is n; below_zero is 1 where v < 0; derivative k stands
// in slot num + k of a table; table_slots is 2 num, value_slots n + 1, derivative_slots n; rung k has the order f + k,
// or f - k where v < 0. On a refusal all other numbers are 0 and f is NaN. A struct of C: refusal and side are numbers.
#[repr(C)]
#[derive(Clone, Copy)]
pub struct GozhnerimOrder {
    pub refusal: u32,
    pub below_zero: u32,
    pub n: u32,
    pub num: u32,
    pub table_slots: usize,
    pub value_slots: usize,
    pub derivative_slots: usize,
    pub f: f64,
}

// The theorems about them. The statements are in specs/Told.antt, the proofs in proofs/Told.antt.
#[tactic(auto, using(crate::proofs::Told::orders_told))]
pub fn orders_told()
    ensures { OrdersTold }
{}

#[tactic(auto, using(crate::proofs::Told::cases_told))]
pub fn cases_told()
    ensures { CasesTold }
{}
