// Cells in the lent table.
#![tactic(auto)]

pub mod cells; // vectors made and read, the frame that an operator keeps
pub mod letters; // a string becomes a vector
