// What an operator's number is to the skeleton.
ghost use Rattle.std.specs.Prelude.{◌≡◌};
ghost use Rattle.machine.specs.Skeleton.{one_of, role_of};

use machine::Role;

// Operators by number (000, appendix B).
pub const BEGIN: u16 = 102;

pub const END: u16 = 103;

const CONTENT_INSTRUCTIONS: u16 = 105;

pub const OPEN: u16 = 106; // {

const CLOSE: u16 = 107; // }

// CORRECT, MAKESIMPLECO, DOSAVESIMPLEBODY, IF, IFCOPY, IFELSE
const HOLDERS: [u16; 6] = [110, 114, 120, 239, 240, 241];

// BEGIN, END, CONTENTINSTRUCTIONS, and a `{` that no body operator stands before
const BARRED: [u16; 4] = [BEGIN, END, CONTENT_INSTRUCTIONS, OPEN];

// Whether n is one of the numbers of the list. Not `list.contains(&n)`: with that `}` is told last, 6 % more for `load` of nested bodies.
fn one_of(list: &[u16], n: u16) -> bool
    ensures { result ≡ one_of list.now n }
{
    for &x in list {
        if x == n {
            return true;
        }
    }
    false
}

// By the definition's lists: a match would write their numbers once more, and is no plainer.
pub fn role_of(n: u16) -> Role
    ensures { result ≡ role_of n }
{
    if n == CLOSE {
        return Role::Closes;
    }
    if one_of(&HOLDERS, n) {
        return Role::Holds;
    }
    if one_of(&BARRED, n) {
        return Role::Barred;
    }
    Role::Plain
}
