// The engine: several steps, and a body under an allowance.
#![tactic(auto)]

pub mod steps; // steps, skipping, a body under an allowance
