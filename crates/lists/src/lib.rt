// Token lists: a token table and its text table, written as one run of bytes; `back` reads it back (document 01, Tokens and What the
// controller takes). Both calls keep their promise in specs/Promise.antt.
#![tactic(auto)]

pub mod writing; // the list as bytes
