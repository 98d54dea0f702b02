// What an operator reads of the values that it pops, and what it gives: as Cardinals, numbers and effects.
#![tactic(auto)]

pub mod values; // a value as an operand
