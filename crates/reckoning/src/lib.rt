// The operators that reckon with what they pop: on vectors, and arithmetic. There is no state here (see `operators`).
#![tactic(auto)]

pub mod arith; // 2.4.9
pub mod vector; // 2.4.3
