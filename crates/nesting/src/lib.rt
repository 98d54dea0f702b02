// Bodies inside bodies (document 01, Skeleton): the body at a place, and what an operator is to it. The definitions are those of `machine`.
#![tactic(auto)]

pub mod roles; // operators, to the skeleton
pub mod bodies; // bodies and literals, each by the other
