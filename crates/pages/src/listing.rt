// What a body left, as text: its row, and its sections.
ghost use Rattle.std.specs.Prelude.{length};
ghost use Rattle.std.specs.Iterator.{at_most};

use crate::values::{Bodies, Value};
use std::fmt;
use table::slots;
use table::words::get_word;

// The bytes of a row.
pub const ROW: usize = 16;

// The bytes of a value.
const VALUE: usize = 20;

// How a body ended.
#[derive(Clone, Copy)]
enum Ending {
    Finished,
    Recovered,
    BrokenOff,
}

impl From<u32> for Ending {
    fn from(word: u32) -> Ending {
        match word {
            1 => Ending::Finished,
            2 => Ending::Recovered,
            _ => Ending::BrokenOff,
        }
    }
}

impl fmt::Display for Ending {
    fn fmt<W: fmt::Write>(&self, f: &mut fmt::Formatter<W>) -> fmt::Result {
        match self {
            Ending::Finished => write!(f, "F"),
            Ending::Recovered => write!(f, "R"),
            Ending::BrokenOff => write!(f, "B"),
        }
    }
}

// The row of a body.
#[derive(Clone, Copy)]
pub struct Row {
    page: usize,
    ending: Ending,
    errors: u32,
    steps: u32,
    cells: u32,
}

impl Row {
    pub fn read(page: usize, row: &[u8; ROW]) -> Row {
        Row {
            page,
            ending: Ending::from(get_word(row, 0)),
            errors: get_word(row, 4),
            steps: get_word(row, 8),
            cells: get_word(row, 12),
        }
    }
}

impl fmt::Display for Row {
    fn fmt<W: fmt::Write>(&self, f: &mut fmt::Formatter<W>) -> fmt::Result {
        let Row {
            page,
            ending,
            errors,
            steps,
            cells,
        } = *self;
        writeln!(
            f,
            "page {page} outcome {ending} errors {errors} steps {steps} cells {cells}"
        )
    }
}

// Sections one after another, each the count of its values and then the values.
#[derive(Drop)]
struct Lists<'a>(&'a [u8]);

impl<'a> Iterator for Lists<'a> {
    type Item = &'a [[u8; VALUE]];

    ghost remaining = { λ s. at_most (length s.0.now) };

    fn next(&mut self) -> Option<&'a [[u8; VALUE]]> {
        let (count, rest) = self.0.split_first_chunk()?;
        let len = VALUE * u32::from_le_bytes(*count) as usize;
        let (list, rest) = rest.split_at_checked(len)?;
        self.0 = rest;
        Some(list.as_chunks().0)
    }
}

impl<'a> Lists<'a> {
    // The values of the next section, none where none is left.
    fn values(&mut self, bodies: Bodies<'a>) -> Values<'a> {
        let list = self.next();
        Values {
            list: list.unwrap_or(&[]),
            bodies,
        }
    }
}

// A section's values, with the bodies of its page.
#[derive(Clone, Copy)]
struct Values<'a> {
    list: &'a [[u8; VALUE]],
    bodies: Bodies<'a>,
}

impl<'a> Values<'a> {
    fn value(&self, words: &[u8; VALUE]) -> Value<'a> {
        Value {
            slot: slots::get(words, 0),
            bodies: self.bodies,
        }
    }
}

// A value to a line.
impl fmt::Display for Values<'_> {
    fn fmt<W: fmt::Write>(&self, f: &mut fmt::Formatter<W>) -> fmt::Result {
        for words in self.list {
            writeln!(f, "{}", self.value(words))?;
        }
        Ok(())
    }
}

// Of a frame only the elements that are not the number 0, each after its place.
#[derive(Clone, Copy)]
struct Frame<'a>(Values<'a>);

impl Frame<'_> {
    // How many these are.
    fn count(&self) -> usize {
        self.0
            .list
            .iter()
            .filter(|words| !self.0.value(words).is_zero())
            .count()
    }
}

impl fmt::Display for Frame<'_> {
    fn fmt<W: fmt::Write>(&self, f: &mut fmt::Formatter<W>) -> fmt::Result {
        for (k, words) in self.0.list.iter().enumerate() {
            let value = self.0.value(words);
            if !value.is_zero() {
                writeln!(f, "{k} {value}")?;
            }
        }
        Ok(())
    }
}

// Stack, frame and cells.
#[derive(Clone, Copy)]
pub struct Sections<'a> {
    stack: Values<'a>,
    frame: Frame<'a>,
    cells: Values<'a>,
}

impl<'a> Sections<'a> {
    pub fn read(sections: &'a [u8], bodies: Bodies<'a>) -> Sections<'a> {
        let mut lists = Lists(sections);
        Sections {
            stack: lists.values(bodies),
            frame: Frame(lists.values(bodies)),
            cells: lists.values(bodies),
        }
    }
}

// Each after its count.
impl fmt::Display for Sections<'_> {
    fn fmt<W: fmt::Write>(&self, f: &mut fmt::Formatter<W>) -> fmt::Result {
        write!(f, "stack {}\n{}", self.stack.list.len(), self.stack)?;
        write!(f, "frame {}\n{}", self.frame.count(), self.frame)?;
        write!(f, "cells {}\n{}", self.cells.list.len(), self.cells)
    }
}
