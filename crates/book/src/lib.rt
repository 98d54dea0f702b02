// `run` and `reprint`: a master's bodies run in the lent table, each page from what the preamble left.
#![tactic(auto)]

pub mod calls; // the public calls
