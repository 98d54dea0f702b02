// A value of the sections as text.
use pieces::sequences;
use std::fmt;
use table::Slot;

// The bodies that hold the text of identifiers: of those with origin 0 the preamble, of any other the page's.
#[derive(Clone, Copy)]
pub struct Bodies<'a> {
    pub preamble: &'a [u8],
    pub page: &'a [u8],
}

// What a slot of the sections holds.
#[derive(Clone, Copy)]
enum Kind {
    Number,
    Identifier,
    Vector,
    Operator,
    Mark,
}

impl From<u32> for Kind {
    fn from(word: u32) -> Kind {
        match word {
            1 => Kind::Number,
            2 => Kind::Identifier,
            3 => Kind::Vector,
            4 => Kind::Operator,
            _ => Kind::Mark,
        }
    }
}

// A continued sequence stands at a place.
fn continues(body: &[u8], at: usize) -> bool {
    points::left_at(body, at) != 0 && sequences::is_continued(body[at])
}

// The most bytes of a name that are put at a time: each by itself takes twice as long.
const RUN: usize = 64;

// Bytes of a name, in lower case.
fn write_lower<W: fmt::Write>(f: &mut fmt::Formatter<W>, bytes: &[u8]) -> fmt::Result {
    let mut lower = [0u8; RUN];
    for part in bytes.chunks(RUN) {
        let len = part.len().min(RUN);
        let run = &mut lower[..len];
        run.copy_from_slice(&part[..len]);
        run.make_ascii_lowercase();
        let Ok(text) = str::from_utf8(run) else {
            return Err(fmt::Error);
        };
        f.write_str(text)?;
    }
    Ok(())
}

// The text of the identifier token at `start`, with all that continues it, in lower case. It has letters, digits and `-`: a token
// with another byte was refused.
#[derive(Clone, Copy)]
struct Name<'a> {
    body: &'a [u8],
    start: usize,
}

impl fmt::Display for Name<'_> {
    fn fmt<W: fmt::Write>(&self, f: &mut fmt::Formatter<W>) -> fmt::Result {
        let mut at = self.start;
        while at < self.body.len() {
            let Some(piece) = sequences::piece_at(self.body, at) else {
                break;
            };
            let end = piece.start + piece.len;
            write_lower(f, &self.body[piece.start..end])?;
            if !continues(self.body, end) {
                break;
            }
            at = end;
        }
        Ok(())
    }
}

// A slot, and the bodies of its page.
#[derive(Clone, Copy)]
pub struct Value<'a> {
    pub slot: Slot,
    pub bodies: Bodies<'a>,
}

impl Value<'_> {
    // It is the number 0.
    pub fn is_zero(&self) -> bool {
        matches!(Kind::from(self.slot.kind), Kind::Number) && self.slot.a == 0
    }

    // Its text, where it is an identifier.
    fn name(&self) -> Name<'_> {
        let body = if self.slot.a == 0 {
            self.bodies.preamble
        } else {
            self.bodies.page
        };
        let start = table::words::size(self.slot.b);
        Name { body, start }
    }
}

// Its words are signed.
impl fmt::Display for Value<'_> {
    fn fmt<W: fmt::Write>(&self, f: &mut fmt::Formatter<W>) -> fmt::Result {
        let a = self.slot.a.cast_signed();
        let b = self.slot.b.cast_signed();
        let c = self.slot.c.cast_signed();
        let d = self.slot.d.cast_signed();
        match Kind::from(self.slot.kind) {
            Kind::Number => write!(f, "n {a}/{b}"),
            Kind::Identifier => write!(f, "i {}", self.name()),
            Kind::Vector => write!(f, "v {a} {b} {c}"),
            Kind::Operator => write!(f, "o {a} {b} {c} {d}"),
            Kind::Mark => write!(f, "m"),
        }
    }
}
