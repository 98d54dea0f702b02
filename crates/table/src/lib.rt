// A lent table of bytes: as words, and as slots of five words, one value each.
#![tactic(auto)]

pub mod slots; // slots, read, put and copied; the table cleared
pub mod words; // words and runs of bytes, read and stored

// Five words. What a slot means is not known here.
#[derive(Clone, Copy)]
pub struct Slot {
    pub kind: u32,
    pub a: u32,
    pub b: u32,
    pub c: u32,
    pub d: u32,
}
