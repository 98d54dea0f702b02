// The bytes of strings and identifiers.
ghost use Rattle.std.specs.Prelude.{◌≡◌};
ghost use Rattle.tokens.specs.Text.{is_letter, is_mark, obeys, every, is_name, lower_of};

use crate::values::name_size;
use tokens::Rule;

pub fn is_letter(b: u8) -> bool
    ensures { result ≡ is_letter b }
{
    b.is_ascii_alphabetic()
}

// A digit or `-`.
fn is_mark(b: u8) -> bool
    ensures { result ≡ is_mark b }
{
    b.is_ascii_digit() || b == b'-'
}

fn obeys_rule(rule: Rule, b: u8) -> bool
    ensures { result ≡ obeys rule b }
{
    match rule {
        Rule::Anything => true,
        Rule::Plain => b != 255,
        Rule::Named => is_letter(b) || is_mark(b),
        Rule::Lowered => b.is_ascii_lowercase() || is_mark(b),
    }
}

// Every byte of the part obeys the rule. The loop has no way out, so that many bytes are compared at once.
pub fn all_obey(rule: Rule, part: &[u8]) -> bool
    ensures { result ≡ every rule part.now }
{
    let mut good = true;
    for &b in part {
        if !obeys_rule(rule, b) {
            good = false;
        }
    }
    good
}

// An identifier whose bytes obey the rule: the first is a letter.
pub fn is_name(rule: Rule, part: &[u8]) -> bool
    ensures { result ≡ is_name rule part.now }
{
    name_size(part.len()) && is_letter(part[0]) && all_obey(rule, part)
}

// Upper case reads as lower.
pub fn lower(b: u8) -> u8
    ensures { result ≡ lower_of b }
{
    b.to_ascii_lowercase()
}
