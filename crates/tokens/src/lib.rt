// Tokens of the Xerox encoding in bytes, which `reader` reads (document 000, 2.5; document 01, Tokens). The machine above relies on the
// definitions of specs/ and the laws of proofs/Theorems.antt alone.
#![tactic(auto)]

pub mod refusals; // every refusal of the product by number
pub mod header; // the header of a master
pub mod kinds; // the types of sequences
pub mod bits; // fields of a token's first bytes
pub mod forms; // the form of the token at a place
mod reads; // the place after a token

// Why an input is refused, by its number (document 01, Outcomes and numbers).
#[derive(Clone, Copy, Debug, PartialEq, Eq)]
pub enum Refusal {
    BadHeader = 1,
    CutOff = 2,
    TypeNotRead = 3,
    BadData = 4,
    NothingContinued = 5,
    NotAllowed = 6,
    AfterEnd = 7,
    TooDeep = 8,
    TooManyPages = 9,
    TooLong = 10,
    TableTooShort = 11,
    PreambleUnfinished = 12,
    NoSuchPage = 13,
    BadAllowance = 14,
    NotWritable = 15,
    NoRoom = 16,
}

// A refusal and its place.
#[derive(Clone, Copy, Debug, PartialEq, Eq)]
pub struct Refused {
    pub refusal: Refusal,
    pub place: usize,
}

// What a public call answers.
pub type Outcome = Result<usize, Refused>;

// The token at a place, and the place after it. A string's count is that of its elements.
#[derive(Clone, Copy)]
pub enum Read {
    Number { value: numbers::Number, next: usize },
    Identifier { len: usize, next: usize },
    String { count: usize, next: usize },
    Operator { number: u16, next: usize },
    Comment { next: usize },
}

// The form of the token at a place, by its first byte: a short number with its 15 bits, an operator, a sequence.
#[derive(Clone, Copy)]
pub enum Form {
    Number { raw: u16, next: usize },
    Operator { number: u16, next: usize },
    Sequence,
}

// What a byte of a text must be.
#[derive(Clone, Copy)]
pub enum Rule {
    Anything,
    Plain,
    Named,
    Lowered,
}

// Where the data of a sequence token lie.
#[derive(Clone, Copy)]
pub struct Piece {
    pub start: usize,
    pub len: usize,
}

// What is kept of joined data: their number, the first of them, the value of the first eight where it matters, whether each obeys
// its rule.
#[derive(Clone, Copy)]
pub struct Summary {
    pub len: usize,
    pub first: u8,
    pub value: u64,
    pub good: bool,
}

// Joined data, and the place after them.
#[derive(Clone, Copy)]
pub struct Gathered {
    pub sum: Summary,
    pub next: usize,
}
