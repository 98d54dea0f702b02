// The form of the token at a place, told by its first byte.
ghost use Rattle.tokens.specs.Passing.{ShowsIfAny};

use crate::Form;
use crate::bits::{class_of, low5, op_number, short15};

// What the first bytes at `at` tell; nothing where the token is cut off. A sequence is left to its own reader, so that this is put in line and a loop over tokens keeps the
// slice in registers.
pub fn form_at(s: &[u8], at: usize) -> Option<Form>
    ensures { ShowsIfAny s.now at result }
{
    if s.len() <= at {
        return None;
    }
    let b = s[at];
    let class = class_of(b);
    if class < 4 {
        if s.len() - at < 2 {
            return None;
        }
        return Some(Form::Number {
            raw: short15(b, s[at + 1]),
            next: at + 2,
        });
    }
    if class == 4 {
        return Some(Form::Operator {
            number: low5(b) as u16,
            next: at + 1,
        });
    }
    if class == 5 {
        if s.len() - at < 2 {
            return None;
        }
        return Some(Form::Operator {
            number: op_number(b, s[at + 1]),
            next: at + 2,
        });
    }
    Some(Form::Sequence)
}
