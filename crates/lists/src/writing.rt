// Writing: the whole list is judged and measured, then put. Each function that puts bytes answers the place after them. In order:
// bytes; sequences, operators, texts; numbers; a judged token; its length; the two passes; the call.
ghost use Rattle.std.specs.Prelude.{◌≡◌, ℕ, ◌+◌, ◌%◌, ◌<◌, ◌≤◌, List, [], ◌∷◌, ◌++◌, length, pos};
ghost use Rattle.std.proofs.lemmas.List.Edits.{sets};
ghost use Rattle.std.specs.Int.Signed.{mag};
ghost use Rattle.std.specs.Int.{w32};
ghost use Rattle.std.proofs.Common.{to_z};
ghost use Rattle.lists.specs.Written.{bytes_of, bytes_in, larger, sequence_bytes, whole_bytes, rational_bytes, operator_bytes, token_bytes, written_of};
ghost use Rattle.items.specs.Listing.{listed};
ghost use Rattle.lists.specs.Promise.{Writes};
ghost use Rattle.items.specs.Judged.{number_in, entry_is, GoodItem};
ghost use Rattle.lists.specs.Inner.{Small, Room, Put, head_bytes, integer_sequence, entry_bytes, capped, measured_of, Fits, tokens_in};

use items::{Item, item_at};
use tokens::kinds::{IDENTIFIER, INTEGER, RATIONAL, STRING};
use tokens::{Outcome, Refusal, Refused};

// The most bytes of a sequence whose length is one byte.
const SHORT: usize = 255;

fn put_byte(out: &mut [u8], o: usize, b: u8) -> usize
    requires { Room out.old o (b ∷ []) }
    ensures { Put out.old out.new o (b ∷ []) result }
{
    out[o] = b;
    o + 1
}

fn put_pair(out: &mut [u8], o: usize, a: u8, b: u8) -> usize
    requires { Room out.old o (a ∷ b ∷ []) }
    ensures { Put out.old out.new o (a ∷ b ∷ []) result }
{
    let p = put_byte(out, o, a);
    put_byte(out, p, b)
}

// The `k` low bytes of `v`, high byte first.
fn put_bytes(out: &mut [u8], o: usize, k: usize, v: u64) -> usize
    requires { Room out.old o (bytes_of k v) }
    ensures { Put out.old out.new o (bytes_of k v) result }
{
    let mut w = v;
    for i in 0..k {
        out[o + k - 1 - i] = (w % 256) as u8;
        w /= 256;
    }
    o + k
}

// Type and length of a sequence.
fn put_sequence_head(out: &mut [u8], o: usize, kind: u8, len: usize) -> usize
    requires { (Room out.old o (head_bytes kind len)) × (kind < 32) }
    ensures { Put out.old out.new o (head_bytes kind len) result }
{
    if len <= SHORT {
        return put_pair(out, o, 192 + kind, len as u8);
    }
    let p = put_byte(out, o, 224 + kind);
    put_bytes(out, p, 3, len as u64)
}

fn put_operator(out: &mut [u8], o: usize, n: u16) -> usize
    requires { (Room out.old o (operator_bytes n)) × (n < 8192) }
    ensures { Put out.old out.new o (operator_bytes n) result }
{
    if n < 32 {
        return put_byte(out, o, tokens::bits::short_first(n));
    }
    put_pair(
        out,
        o,
        tokens::bits::long_first(n),
        tokens::bits::low_byte(n),
    )
}

// The part as an identifier or a string.
fn put_text(out: &mut [u8], o: usize, kind: u8, part: &[u8]) -> usize
    requires { (Room out.old o (sequence_bytes kind part.now)) × (kind < 32) }
    ensures { Put out.old out.new o (sequence_bytes kind part.now) result }
{
    let p = put_sequence_head(out, o, kind, part.len());
    table::words::copy(out, p, part);
    p + part.len()
}

// The bits of a short number, from its word.
fn raised_of(a: u32) -> u32
    ensures { result ≡ (a + 4000) % 4294967296 }
{
    std::num::wrapping_add_u32(a, 4000)
}

fn mag_of(a: u32) -> u32
    ensures { result ≡ mag (to_z w32 a) }
{
    a.min(!a)
}

// The fewest bytes that hold a number.
fn bytes_for(m: u32) -> usize
    ensures { (result ≡ bytes_in (pos m)) × (result ≤ 4) }
{
    if m < 128 {
        return 1;
    }
    if m < 32768 {
        return 2;
    }
    if m < 8388608 { 3 } else { 4 }
}

// The same of a word as a signed number.
fn bytes_for_word(a: u32) -> usize
    ensures { (result ≡ bytes_in (to_z w32 a)) × (result ≤ 4) }
{
    bytes_for(mag_of(a))
}

// The bytes of each half of a rational.
fn half_of(num: u32, den: u32) -> usize
    ensures { (result ≡ larger (bytes_in (to_z w32 num)) (bytes_in (pos den))) × (result ≤ 4) }
{
    let a = bytes_for_word(num);
    let b = bytes_for(den);
    if a < b { b } else { a }
}

fn put_integer(out: &mut [u8], o: usize, a: u32) -> usize
    requires { Room out.old o (integer_sequence (to_z w32 a)) }
    ensures { Put out.old out.new o (integer_sequence (to_z w32 a)) result }
{
    let k = bytes_for_word(a);
    let p = put_sequence_head(out, o, INTEGER, k);
    put_bytes(out, p, k, a as u64)
}

fn put_whole(out: &mut [u8], o: usize, a: u32) -> usize
    requires { Room out.old o (whole_bytes (to_z w32 a)) }
    ensures { Put out.old out.new o (whole_bytes (to_z w32 a)) result }
{
    let v = raised_of(a);
    if v < 32768 {
        return put_pair(out, o, (v / 256) as u8, (v % 256) as u8);
    }
    put_integer(out, o, a)
}

// `k` bytes of each.
fn put_halves(out: &mut [u8], o: usize, k: usize, num: u32, den: u32) -> usize
    requires { Room out.old o (bytes_of k num ++ bytes_of k den) }
    ensures { Put out.old out.new o (bytes_of k num ++ bytes_of k den) result }
{
    let p = put_bytes(out, o, k, num as u64);
    put_bytes(out, p, k, den as u64)
}

fn put_rational(out: &mut [u8], o: usize, num: u32, den: u32) -> usize
    requires { Room out.old o (rational_bytes (to_z w32 num) den) }
    ensures { Put out.old out.new o (rational_bytes (to_z w32 num) den) result }
{
    let k = half_of(num, den);
    let p = put_sequence_head(out, o, RATIONAL, k + k);
    put_halves(out, p, k, num, den)
}

fn put_number(out: &mut [u8], o: usize, num: u32, den: u32) -> usize
    requires { Room out.old o (token_bytes (number_in num den)) }
    ensures { Put out.old out.new o (token_bytes (number_in num den)) result }
{
    if den == 1 {
        return put_whole(out, o, num);
    }
    put_rational(out, o, num, den)
}

// A judged token at `o`.
fn put_item(out: &mut [u8], o: usize, x: &[u8], item: Item) -> usize
    requires { (Room out.old o (entry_bytes (entry_is x.now (Some item)))) × GoodItem x.now (Some item) }
    ensures { Put out.old out.new o (entry_bytes (entry_is x.now (Some item))) result }
{
    match item {
        Item::Number { num, den } => put_number(out, o, num, den),
        Item::Identifier { start, len } => put_text(out, o, IDENTIFIER, &x[start..start + len]),
        Item::String { start, len } => put_text(out, o, STRING, &x[start..start + len]),
        Item::Operator { number } => put_operator(out, o, number),
    }
}

fn whole_size(a: u32) -> usize
    ensures { (result ≡ length (whole_bytes (to_z w32 a))) × (result ≤ 10) }
{
    if raised_of(a) < 32768 {
        return 2;
    }
    2 + bytes_for_word(a)
}

fn number_size(num: u32, den: u32) -> usize
    ensures { (result ≡ length (token_bytes (number_in num den))) × (result ≤ 10) }
{
    if den == 1 {
        return whole_size(num);
    }
    let k = half_of(num, den);
    2 + k + k
}

// A text of `len` bytes, as a sequence of any type.
fn text_size(len: usize) -> usize
    requires { len < 2147483648 }
    ensures { ((k : ℕ) → result ≡ length (head_bytes k len) + len) × (result ≤ 4 + len) }
{
    if len <= SHORT {
        return 2 + len;
    }
    4 + len
}

// The written length of a judged token.
fn size_of(item: Item) -> usize
    requires { Small item }
    ensures { ((x : List ℕ) → GoodItem x (Some item) → result ≡ length (entry_bytes (entry_is x (Some item)))) × (result ≤ 2147483652) }
{
    match item {
        Item::Number { num, den } => number_size(num, den),
        Item::Identifier { len, .. } | Item::String { len, .. } => text_size(len),
        Item::Operator { number } => { if number < 32 { 1 } else { 2 } }
    }
}

fn cap(n: usize) -> usize
    ensures { (result ≡ capped n) × (result ≤ 16777216) }
{
    if n <= 16777216 { n } else { 16777216 }
}

// Judges the whole list, and measures its written form, up to 16777216; or the first token that cannot be written.
fn measure(list: &[u8], text: &[u8]) -> Result<usize, Refused>
    ensures { result ≡ measured_of (listed list.now text.now) }
{
    let mut total: usize = 21;
    for at in (0..list.len()).step_by(16) {
        let Some(item) = item_at(list, text, at) else {
            return Err(Refusal::NotWritable.met_at(at / 16));
        };
        total = cap(total + size_of(item));
    }
    Ok(total)
}

// Puts a list that was judged and fits.
fn put_all(list: &[u8], text: &[u8], out: &mut [u8])
    requires { Fits (listed list.now text.now) (length out.old) }
    ensures { out.new ≡ sets out.old 0 (written_of (tokens_in (listed list.now text.now))) }
{
    table::words::copy(out, 0, b"Interpress/Xerox/3.0 ");
    let mut o: usize = 21;
    let end = list.len();
    for at in (0..end).step_by(16) {
        let item = item_at(list, text, at).unwrap();
        o = put_item(out, o, text, item);
    }
}

// Writes a token list with its text table, and answers the written length.
pub fn write(list: &[u8], text: &[u8], out: &mut [u8]) -> Outcome
    ensures { Writes list.now text.now out.old out.new result }
{
    let len = measure(list, text)?;
    if tokens::header::LONGEST < len || out.len() < len {
        return Err(Refusal::NoRoom.met_at(0));
    }
    put_all(list, text, out);
    Ok(len)
}
