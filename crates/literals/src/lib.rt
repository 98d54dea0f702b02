// The literal that is due at a place of a body's bytes.
#![tactic(auto)]

pub mod reading; // the literal at a place

// A literal, and where the next one stands, past comments.
#[derive(Clone, Copy)]
pub struct Due {
    pub literal: machine::Literal,
    pub next: usize,
}

// What skipping asks of a literal: where the next one stands, past comments, and whether it is UNMARK0.
#[derive(Clone, Copy)]
pub struct Ahead {
    pub next: usize,
    pub unmarks: bool,
}

// An operator without a body, by its number, and where the next literal stands, past comments.
#[derive(Clone, Copy)]
pub struct Bare {
    pub number: u16,
    pub next: usize,
}
