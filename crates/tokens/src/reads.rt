// The place after a token.
ghost use Rattle.std.specs.Prelude.{◌≡◌};
ghost use Rattle.tokens.specs.Passing.{after};

use crate::Read;

impl Read {
    pub fn next_place(self) -> usize
        ensures { result ≡ after self }
    {
        match self {
            Read::Number { value: _, next } => next,
            Read::Identifier { len: _, next } => next,
            Read::String { count: _, next } => next,
            Read::Operator { number: _, next } => next,
            Read::Comment { next } => next,
        }
    }
}
