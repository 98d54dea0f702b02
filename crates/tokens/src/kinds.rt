// The types of sequences, by their numbers (document 000, 2.5.3).
pub const STRING: u8 = 1;

pub const INTEGER: u8 = 2;

pub const RATIONAL: u8 = 4;

pub const IDENTIFIER: u8 = 5;

pub const COMMENT: u8 = 6;

pub const CONTINUED: u8 = 7;
