// The C interface: what include/gozhnerim.h declares, as libgozhnerim.a. Each function hands its request to the proved
// crates below and its answer back in a struct of C (gozhnerim_structs, gozhnerim_told). No function has a condition:
// any bytes in a state or a table are safe.

#![tactic(auto)]

mod answers;
mod column_reader;
mod ladders;
mod told;
