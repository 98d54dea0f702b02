// One token of a table, judged. In order: the kinds; the token by its kind; the token at a place.
#![tactic(auto)]

ghost use Rattle.std.specs.Prelude.{◌≡◌, ◌&&◌, List, ℕ, ◌+◌, ◌≤◌, eqb, length, nat_abs};
ghost use Rattle.std.proofs.Math.Seq.{slice};
ghost use Rattle.std.specs.Int.{w32};
ghost use Rattle.std.proofs.Common.{to_z};
ghost use Rattle.items.specs.Tokens.{operator, writable};
ghost use Rattle.items.specs.Listing.{writes, entry, in_table, entry_of, entry_at};
ghost use Rattle.items.specs.Judged.{number_in, text_token, GoodText, Judged};

// A token of a table that can be written, with its words as they stand there (a numerator in two's complement) and a place in the
// text table.
#[derive(Clone, Copy)]
pub enum Item {
    Number { num: u32, den: u32 },
    Identifier { start: usize, len: usize },
    String { start: usize, len: usize },
    Operator { number: u16 },
}

// The size of a numerator, from its word.
fn size_of_word(a: u32) -> u64
    ensures { result ≡ nat_abs (to_z w32 a) }
{
    a.cast_signed().unsigned_abs() as u64
}

fn number_item(a: u32, b: u32, c: u32) -> Option<Item>
    ensures { (x : List ℕ) → Judged x (entry (eqb c 0) (number_in a b)) result }
{
    if c == 0 && numbers::lowest::is_fraction(size_of_word(a), b as u64) {
        return Some(Item::Number { num: a, den: b });
    }
    None
}

// The text can be written: as an identifier with no upper case where `named`, else as a string.
fn is_text(named: bool, part: &[u8]) -> bool
    ensures { result ≡ writable (text_token named part.now) }
{
    if named {
        pieces::text::is_name(tokens::Rule::Lowered, part)
    } else {
        pieces::text::all_obey(tokens::Rule::Plain, part)
    }
}

fn text_at(named: bool, start: usize, len: usize) -> Item
    ensures { (x : List ℕ) → GoodText x start len → Judged x (writes (text_token named (slice start (start + len) x))) (Some result) }
{
    if named {
        Item::Identifier { start, len }
    } else {
        Item::String { start, len }
    }
}

fn text_item(named: bool, x: &[u8], a: u32, b: u32, c: u32) -> Option<Item>
    ensures { Judged x.now (entry (eqb c 0 && in_table x.now a b) (text_token named (slice a (a + b) x.now))) result }
{
    if c != 0 || 2147483647 < a || 2147483647 < b {
        return None;
    }
    let start = a as usize;
    let len = b as usize;
    if start + len <= x.len() && is_text(named, &x[start..start + len]) {
        return Some(text_at(named, start, len));
    }
    None
}

fn operator_item(a: u32, b: u32, c: u32) -> Option<Item>
    ensures { (x : List ℕ) → Judged x (entry (eqb b 0 && eqb c 0) (operator a)) result }
{
    if b != 0 || c != 0 || 8191 < a {
        return None;
    }
    Some(Item::Operator { number: a as u16 })
}

// In line, as `item_at` is: else an item goes through memory, and writing operators takes twice the time.
#[inline(always)]
fn item_of(x: &[u8], k: u32, a: u32, b: u32, c: u32) -> Option<Item>
    ensures { Judged x.now (entry_of x.now k a b c) result }
{
    match k {
        1 => number_item(a, b, c),
        2 => text_item(true, x, a, b, c),
        3 => text_item(false, x, a, b, c),
        4 => operator_item(a, b, c),
        _ => None,
    }
}

// The token at byte `at` of the list, if one stands there that can be written.
#[inline(always)]
pub fn item_at(list: &[u8], text: &[u8], at: usize) -> Option<Item>
    requires { at ≤ length list.now }
    ensures { Judged text.now (entry_at list.now text.now at) result }
{
    if list.len() - at < 16 {
        return None;
    }
    item_of(
        text,
        table::words::get_word(list, at),
        table::words::get_word(list, at + 4),
        table::words::get_word(list, at + 8),
        table::words::get_word(list, at + 12),
    )
}
