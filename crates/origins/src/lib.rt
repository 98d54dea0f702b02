// Bytes by origin: 0 is the preamble's body, 1 the page's; no other has any.
#![tactic(auto)]

ghost use Rattle.std.specs.Prelude.{◌≡◌};
ghost use Rattle.machine.specs.Literal.{bytes_of, found_at};
ghost use Rattle.names.specs.Names.{both};
ghost use Rattle.literals.specs.Dues.{LiteralThere, Is};
ghost use Rattle.origins.specs.Bodies.{Short, Noting};

use literals::Due;

pub fn bytes_of<'a>(pre: &'a [u8], body: &'a [u8], origin: u32) -> &'a [u8]
    ensures { result.now ≡ bytes_of (both pre.now body.now) origin }
{
    if origin == 0 {
        return pre;
    }
    if origin == 1 {
        return body;
    }
    let none: usize = 0;
    &pre[none..none]
}

// The literal at `at` of the body with that origin. `early` has notes on where bodies of the preamble end, `notes` of the page; both are left
// with more.
pub fn due_of(
    pre: &[u8],
    body: &[u8],
    early: &mut [u32],
    notes: &mut [u32],
    origin: u32,
    at: usize,
) -> Due
    requires { Short pre.now body.now × Noting pre.now body.now early.old notes.old × LiteralThere (bytes_of (both pre.now body.now) origin) at }
    ensures { Is (found_at (bytes_of (both pre.now body.now) origin) at) result × Noting pre.now body.now early.new notes.new }
{
    if origin == 0 {
        return literals::reading::due(pre, at, early);
    }
    if origin == 1 {
        return literals::reading::due(body, at, notes);
    }
    Due {
        literal: machine::Literal::Plain { number: 0 },
        next: 0,
    }
}
