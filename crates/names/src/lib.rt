// Identifiers compared by their text. Where a text lies in the bytes is said by its origin (0 the preamble's, 1 the page's) and its start.
#![tactic(auto)]

ghost use Rattle.std.specs.Prelude.{◌≡◌, ◌<◌, length, get_or};
ghost use Rattle.tokens.specs.Joined.{data_of, joined_at};
ghost use Rattle.names.specs.Names.{both, data_at, same_text};

// Byte i of the data of the sequence token at `at`, with all that continues it.
fn letter(b: &[u8], at: usize, i: usize) -> u8
    requires { i < length (data_of (joined_at b.now at)) }
    ensures { result ≡ get_or (data_of (joined_at b.now at)) i 0 }
{
    if at >= b.len() {
        return 0;
    }
    let Some(first) = pieces::sequences::piece_at(b, at) else {
        return 0;
    };
    let mut piece = first;
    let mut left = i;
    while piece.len <= left {
        let next = piece.start + piece.len;
        if next >= b.len() {
            return 0;
        }
        let Some(more) = pieces::sequences::next_piece(b, next) else {
            return 0;
        };
        left -= piece.len;
        piece = more;
    }
    b[piece.start + left]
}

// How many bytes the data of the sequence token at `start` are, in the bytes with that origin.
fn size_of(pre: &[u8], body: &[u8], origin: u32, start: usize) -> usize
    ensures { result ≡ length (data_at (both pre.now body.now) origin start) }
{
    if origin == 0 {
        return pieces::sequences::data_size(pre, start);
    }
    if origin == 1 {
        return pieces::sequences::data_size(body, start);
    }
    0
}

// Byte i of them.
fn letter_of(pre: &[u8], body: &[u8], origin: u32, start: usize, i: usize) -> u8
    requires { i < length (data_at (both pre.now body.now) origin start) }
    ensures { result ≡ get_or (data_at (both pre.now body.now) origin start) i 0 }
{
    if origin == 0 {
        return letter(pre, start, i);
    }
    if origin == 1 {
        return letter(body, start, i);
    }
    0
}

// The identifiers have one text: as many bytes, the same in lower case.
pub fn same_text(pre: &[u8], body: &[u8], o1: u32, s1: u32, o2: u32, s2: u32) -> bool
    ensures { result ≡ same_text (both pre.now body.now) o1 s1 o2 s2 }
{
    let x = s1 as usize;
    let y = s2 as usize;
    let n = size_of(pre, body, o1, x);
    let m = size_of(pre, body, o2, y);
    if n != m {
        return false;
    }
    for i in 0..n {
        let a = pieces::text::lower(letter_of(pre, body, o1, x, i));
        let b = pieces::text::lower(letter_of(pre, body, o2, y, i));
        if a != b {
            return false;
        }
    }
    true
}
