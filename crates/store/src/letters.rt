// A string's elements go from the bytes into cells.
ghost use Rattle.std.specs.Prelude.{◌≡◌, ◌+◌, ◌*◌, ◌≤◌, length};
ghost use Rattle.std.proofs.lemmas.List.Edits.{sets};
ghost use Rattle.table.specs.Slots.{slots};
ghost use Rattle.tokens.specs.Joined.{data_of, joined_at, continuations, FitsText};
ghost use Rattle.state.specs.Layout.{Busy, Tried};
ghost use Rattle.state.specs.Operations.{letter_slots, spell};

use state::Registers;
use table::Slot;

// The bytes of the part as numbers in the slots from k on.
fn put_piece(w: &mut [u8], k: usize, part: &[u8])
    requires { 20 * (k + length part.now) ≤ length w.old }
    ensures { slots w.new ≡ sets (slots w.old) k (letter_slots part.now) }
{
    for i in 0..part.len() {
        table::slots::put(
            w,
            k + i,
            Slot {
                kind: 1,
                a: part[i] as u32,
                b: 1,
                c: 0,
                d: 0,
            },
        );
    }
}

// The data of all continued tokens from `start` on, in the slots from k on.
fn put_pieces(w: &mut [u8], k: usize, b: &[u8], start: usize)
    requires { FitsText (length (slots w.old)) k (continuations b.now start) }
    ensures { slots w.new ≡ sets (slots w.old) k (letter_slots (data_of (continuations b.now start))) }
{
    let mut at = start;
    let mut q = k;
    while at < b.len() {
        let Some(piece) = pieces::sequences::next_piece(b, at) else {
            return;
        };
        at = piece.start + piece.len;
        put_piece(w, q, &b[piece.start..at]);
        q += piece.len;
    }
}

// The n data of the string token at `at`, in the slots from k on.
fn put_letters(w: &mut [u8], k: usize, b: &[u8], at: usize, n: usize)
    requires { (n ≡ length (data_of (joined_at b.now at))) × (20 * (k + n) ≤ length w.old) }
    ensures { slots w.new ≡ sets (slots w.old) k (letter_slots (data_of (joined_at b.now at))) }
{
    if n == 0 {
        return;
    }
    if at >= b.len() {
        return;
    }
    let Some(piece) = pieces::sequences::piece_at(b, at) else {
        return;
    };
    let next = piece.start + piece.len;
    put_piece(w, k, &b[piece.start..next]);
    put_pieces(w, k + piece.len, b, next);
}

// The string token at `at` of the bytes b becomes a vector.
pub fn spell(w: &mut [u8], r: Registers, b: &[u8], at: usize) -> Option<Registers>
    requires { Busy w.old r }
    ensures { Tried (spell b.now at) w.old r w.new result }
{
    let height = r.height;
    let used = r.used;
    let n = pieces::sequences::data_size(b, at);
    if height >= 128 {
        return None;
    }
    if n > 1024 - used {
        return None;
    }
    put_letters(w, 728 + used, b, at, n);
    Some(crate::cells::put_vector(w, r, height, 0, n))
}
