// Token lists read back into lent tables (document 01, Tokens and What the controller takes).
#![tactic(auto)]

pub mod reading; // reading back into lent tables
