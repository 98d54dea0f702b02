// The token at a place of the bytes (document 000, 2.5; document 01, Tokens), read.
#![tactic(auto)]

pub mod judging; // the token that data make, from what is known of them
pub mod single; // a sequence in a single piece, judged where it lies
pub mod reading; // the token at a place
