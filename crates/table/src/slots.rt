// Slots, read, put and copied; the table cleared.
ghost use Rattle.std.specs.Prelude.{◌≡◌, ◌+◌, ◌*◌, ◌<◌, ◌≤◌, length, get_or, set};
ghost use Rattle.std.proofs.lemmas.List.Edits.{sets};
ghost use Rattle.table.specs.Slots.{slot_bytes, slots, nil, copied, zeroed};

use crate::Slot;

// The slot k.
pub fn get(w: &[u8], k: usize) -> Slot
    requires { 20 * k + 20 ≤ length w.now }
    ensures { result ≡ get_or (slots w.now) k nil }
{
    let p = 20 * k;
    Slot {
        kind: crate::words::get_word(w, p),
        a: crate::words::get_word(w, p + 4),
        b: crate::words::get_word(w, p + 8),
        c: crate::words::get_word(w, p + 12),
        d: crate::words::get_word(w, p + 16),
    }
}

// The five words of v from byte p on.
pub fn emit(t: &mut [u8], p: usize, v: Slot)
    requires { p + 20 ≤ length t.old }
    ensures { t.new ≡ sets t.old p (slot_bytes v) }
{
    crate::words::put_word(t, p, v.kind);
    crate::words::put_word(t, p + 4, v.a);
    crate::words::put_word(t, p + 8, v.b);
    crate::words::put_word(t, p + 12, v.c);
    crate::words::put_word(t, p + 16, v.d);
}

// The slot k is v.
pub fn put(w: &mut [u8], k: usize, v: Slot)
    requires { 20 * k + 20 ≤ length w.old }
    ensures { slots w.new ≡ set (slots w.old) k v }
{
    emit(w, 20 * k, v);
}

// The n slots from s on to d on, the first first. Not `copy_within`: where the two parts meet, `copied` puts again what it has put.
pub fn copy(w: &mut [u8], s: usize, d: usize, n: usize)
    requires { (20 * (s + n) ≤ length w.old) × (20 * (d + n) ≤ length w.old) }
    ensures { slots w.new ≡ copied (slots w.old) s d n }
{
    for i in 0..n {
        let v = get(w, s + i);
        put(w, d + i, v);
    }
}

// The same by bytes, which the compiler moves many at a time: it pays from some twenty slots on (DECISIONS, D68).
pub fn copy_long(w: &mut [u8], s: usize, d: usize, n: usize)
    requires { (20 * (s + n) ≤ length w.old) × (20 * (d + n) ≤ length w.old) }
    ensures { slots w.new ≡ copied (slots w.old) s d n }
{
    for i in 0..20 * n {
        w[20 * d + i] = w[20 * s + i];
    }
}

// The first n bytes are 0.
pub fn clear(w: &mut [u8], n: usize)
    requires { n ≤ length w.old }
    ensures { w.new ≡ zeroed n w.old }
{
    w[..n].fill(0);
}
