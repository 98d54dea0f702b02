// Bodies of a master run in the lent table, by their places: the preamble, and each page from what it left, with its row.
#![tactic(auto)]

mod pages; // the preamble, and a page
pub mod walks; // bodies of a master, by their places
