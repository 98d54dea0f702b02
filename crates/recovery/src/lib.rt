// Mark recovery in the lent table, the ends of bodies.
#![tactic(auto)]

pub mod ends; // mark recovery, the end of bodies
