// Refusals and answers as numbers.
ghost use Rattle.std.specs.Prelude.{◌≡◌};
ghost use Rattle.tokens.specs.Refusal.{number_of, refusal_at, answer_number, answer_value};

use crate::{Outcome, Refusal, Refused};

impl Refusal {
    pub fn number(self) -> u32
        ensures { result ≡ number_of self }
    {
        self as u32
    }

    pub fn met_at(self, place: usize) -> Refused
        ensures { result ≡ refusal_at self place }
    {
        Refused {
            refusal: self,
            place,
        }
    }
}

// 0 where the call is done.
pub fn answer_number(outcome: Outcome) -> u32
    ensures { result ≡ answer_number outcome }
{
    match outcome {
        Ok(_) => 0,
        Err(refused) => refused.refusal.number(),
    }
}

pub fn answer_value(outcome: Outcome) -> usize
    ensures { result ≡ answer_value outcome }
{
    match outcome {
        Ok(value) => value,
        Err(refused) => refused.place,
    }
}
