// Answer, state and reply as structs of the C interface, as include/gozhnerim.h declares them, and what goes into them
// and comes out of them. Refusal, function and side are numbers, as in the header. Each public function answers every
// input.

#![tactic(auto)]

mod answers;
mod ladders;

pub use ladders::reply_of;

// Refusal 0: answered. On a refusal the two numbers are NaN.
#[repr(C)]
#[derive(Clone, Copy)]
pub struct GozhnerimAnswer {
    pub refusal: u32,
    pub value: f64,
    pub derivative: f64,
}

// A state. Function 1 is D, 2 is V, and any other number makes it empty; below_zero is 0 from order 0 on; value_below
// is rung n - 1, value_top rung n.
#[repr(C)]
#[derive(Clone, Copy)]
pub struct GozhnerimLadder {
    pub function: u32,
    pub below_zero: u32,
    pub n: u32,
    pub reserved: [u32; 3],
    pub x: f64,
    pub f: f64,
    pub value_below: f64,
    pub value_top: f64,
}

// A reply. On a refusal the count is 0, the two numbers are NaN and the ladder is the one that came.
#[repr(C)]
#[derive(Clone, Copy)]
pub struct GozhnerimReply {
    pub ladder: GozhnerimLadder,
    pub refusal: u32,
    pub written: u32,
    pub value: f64,
    pub derivative: f64,
}
