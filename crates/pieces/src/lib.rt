// Sequences a piece at a time (document 000, 2.5.3; document 01, Tokens): where the data of one stand, judged and summed up, and their value.
#![tactic(auto)]

pub mod values; // sizes of data, bytes high byte first, two's complement
pub mod text; // strings and identifiers
pub mod sequences; // a sequence with its continuations
