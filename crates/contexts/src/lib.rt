// Contexts in the lent table: bodies entered and gone on in, and their frames.
#![tactic(auto)]

pub mod bodies; // a step begun, bodies entered, a body of the engine's opened
pub mod frames; // the running frame
