// Numbers of document 01: fractions in lowest terms inside the limits. What the operations of 2.4.9 mean on them is defined here; `arithmetic`
// does them. A result is held against the limits only when it stands in lowest terms.
#![tactic(auto)]

mod euclid; // the greatest common divisor
pub mod lowest; // a quotient in lowest terms, held against the limits
pub mod wholes; // whole numbers as sign and size
pub mod words; // a numerator as its bits

// A fraction. Of document 01's numbers the numerator is -2147483647 to 2147483647 and the denominator 1 to 2147483647.
#[derive(Clone, Copy)]
pub struct Number {
    pub num: i32,
    pub den: u32,
}

// Why an operation gives no number: it does not fit the limits, or it is a division by zero.
#[derive(Clone, Copy, Debug, PartialEq, Eq)]
pub enum NoNumber {
    TooLarge,
    ByZero,
}

// A whole number between the steps of an operation: its size, and whether it lies below zero.
#[derive(Clone, Copy)]
pub struct Whole {
    pub below: bool,
    pub size: u64,
}
