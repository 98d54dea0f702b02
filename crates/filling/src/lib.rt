// A token list that is read back, put into lent tables: what each token adds, and the whole list.
#![tactic(auto)]

ghost use Rattle.std.specs.Prelude.{◌≡◌, ◌+◌, ◌^◌, ◌<◌, ◌≤◌, length};
ghost use Rattle.std.proofs.lemmas.List.Edits.{sets};
ghost use Rattle.std.specs.Int.{w32};
ghost use Rattle.std.proofs.Common.{of_z};
ghost use Rattle.tokens.specs.Format.{longest};
ghost use Rattle.tokens.specs.Joined.{data_of, joined_at, continuations, FitsText};
ghost use Rattle.lists.specs.Promise.{four_words};
ghost use Rattle.filling.specs.Filling.{step, tokens_in, shown, Put, Room, Holds, tokens_got, Fills};

use pieces::sequences::{next_piece, piece_at};
use reader::reading::read_token;
use tokens::Read;

// What a token that was read does to the counts, and where reading goes on.
#[derive(Clone, Copy)]
pub struct Step {
    pub adds: usize,
    pub text: usize,
    pub next: usize,
}

impl Step {
    pub fn new(adds: usize, text: usize, next: usize) -> Step
        ensures { result ≡ step adds text next }
    {
        Step { adds, text, next }
    }
}

// How many tokens there are and how long their texts are in all.
#[derive(Clone, Copy)]
pub struct Survey {
    pub count: usize,
    pub texts: usize,
}

// Where reading stands: in the bytes, in the list, in the text table.
#[derive(Clone, Copy)]
pub struct Place {
    pub at: usize,
    pub p: usize,
    pub o: usize,
}

impl Place {
    // The place after a token's words and `len` bytes of its text.
    fn past(self, next: usize, len: usize) -> Place
        requires { (self.p + 16 < 2 ^ 64) × (self.o + len < 2 ^ 64) }
        ensures { result ≡ record { at = next; p = self.p + 16; o = self.o + len } }
    {
        Place {
            at: next,
            p: self.p + 16,
            o: self.o + len,
        }
    }
}

// Puts a token's four words, the last of them 0.
fn put_words(b: &mut [u8], i: usize, k: u32, v: u32, w: u32)
    requires { i + 16 ≤ length b.old }
    ensures { b.new ≡ sets b.old i (four_words k v w) }
{
    table::words::put_word(b, i, k);
    table::words::put_word(b, i + 4, v);
    table::words::put_word(b, i + 8, w);
    table::words::put_word(b, i + 12, 0);
}

fn put_number(list: &mut [u8], p: usize, value: numbers::Number)
    requires { p + 16 ≤ length list.old }
    ensures { list.new ≡ sets list.old p (four_words 1 (of_z w32 value.num) value.den) }
{
    put_words(list, p, 1, numbers::words::to_word(value.num), value.den);
}

// Copies the part to `o` on, in lower case where asked.
fn put_part(lower: bool, text: &mut [u8], o: usize, part: &[u8])
    requires { o + length part.now ≤ length text.old }
    ensures { text.new ≡ sets text.old o (shown lower part.now) }
{
    table::words::copy(text, o, part);
    if lower {
        text[o..o + part.len()].make_ascii_lowercase();
    }
}

// Copies the data of all continued tokens from `start` on to `o`.
fn copy_from(lower: bool, s: &[u8], start: usize, text: &mut [u8], o: usize)
    requires { FitsText (length text.old) o (continuations s.now start) }
    ensures { text.new ≡ sets text.old o (shown lower (data_of (continuations s.now start))) }
{
    let mut at = start;
    let mut q = o;
    while at < s.len() {
        let Some(piece) = next_piece(s, at) else {
            return;
        };
        at = piece.start + piece.len;
        put_part(lower, text, q, &s[piece.start..at]);
        q += piece.len;
    }
}

// Copies the text of the identifier or string token at `at`.
fn copy_text(lower: bool, s: &[u8], at: usize, text: &mut [u8], o: usize)
    requires { (at < length s.now) × FitsText (length text.old) o (joined_at s.now at) }
    ensures { text.new ≡ sets text.old o (shown lower (data_of (joined_at s.now at))) }
{
    let piece = piece_at(s, at).unwrap();
    let next = piece.start + piece.len;
    put_part(lower, text, o, &s[piece.start..next]);
    copy_from(lower, s, next, text, o + piece.len);
}

// Puts the words and the text of the identifier or string token at the place.
fn put_text(
    lower: bool,
    kind: u32,
    s: &[u8],
    len: usize,
    list: &mut [u8],
    text: &mut [u8],
    place: Place,
)
    requires { (place.at < length s.now) × (place.p + 16 ≤ length list.old) × (place.o < 2 ^ 32) × (len < 2 ^ 32)
        × FitsText (length text.old) place.o (joined_at s.now place.at) }
    ensures { (list.new ≡ sets list.old place.p (four_words kind place.o len))
        × (text.new ≡ sets text.old place.o (shown lower (data_of (joined_at s.now place.at)))) }
{
    put_words(list, place.p, kind, place.o as u32, len as u32);
    copy_text(lower, s, place.at, text, place.o);
}

// Puts what the token t at the place adds into the two tables, and answers the place after it.
fn put_read(s: &[u8], t: Read, list: &mut [u8], text: &mut [u8], place: Place) -> Place
    requires { Room s.now place.at (Ok t) place.p place.o list.old text.old }
    ensures { Put s.now place.at (Ok t) place.p place.o list.old list.new text.old text.new result }
{
    match t {
        Read::Number { value, next } => {
            put_number(list, place.p, value);
            place.past(next, 0)
        }
        Read::Identifier { len, next } => {
            put_text(true, 2, s, len, list, text, place);
            place.past(next, len)
        }
        Read::String { count, next } => {
            put_text(false, 3, s, count, list, text, place);
            place.past(next, count)
        }
        Read::Operator { number, next } => {
            put_words(list, place.p, 4, number as u32, 0);
            place.past(next, 0)
        }
        Read::Comment { next } => Place { at: next, ..place },
    }
}

// Fills the tables with a list that was surveyed and fits.
pub fn fill_tables(s: &[u8], list: &mut [u8], text: &mut [u8])
    requires { (length s.now ≤ longest) × Holds (tokens_in s.now) (length list.old) (length text.old) }
    ensures { Fills (tokens_got (tokens_in s.now)) list.old list.new text.old text.new }
{
    let mut place = Place { at: 21, p: 0, o: 0 };
    while place.at < s.len() {
        let token = read_token(s, place.at).unwrap();
        place = put_read(s, token, list, text, place);
    }
}
