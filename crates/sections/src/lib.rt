// A result's sections: stack, frame and the cells charged, each after its count.
#![tactic(auto)]

ghost use Rattle.std.specs.Prelude.{◌≡◌, ◌+◌, ◌*◌, ◌≤◌, length};
ghost use Rattle.std.proofs.lemmas.List.Edits.{sets};
ghost use Rattle.table.specs.Slots.{slots, slot_bytes};
ghost use Rattle.machine.specs.Page.{bytes_in, value_words, entry_words, section_words, result_of, section_bytes};
ghost use Rattle.machine.specs.Promise.{over};
ghost use Rattle.state.specs.Layout.{value_in, abs, Good};
ghost use Rattle.state.specs.Operations.{entry_or, shown_from};

use state::Registers;
use table::Slot;

// The words of a value as a result shows them: an unused word is 0.
fn shown_value(v: Slot) -> Slot
    ensures { slot_bytes result ≡ bytes_in (value_words (value_in v)) }
{
    if v.kind == 2 {
        return Slot {
            kind: 2,
            a: v.a,
            b: v.b,
            c: v.c,
            d: 0,
        };
    }
    if v.kind == 3 {
        return Slot {
            kind: 3,
            a: v.a % 2147483648,
            b: v.b % 2147483648,
            c: v.c % 2147483648,
            d: 0,
        };
    }
    if v.kind == 4 {
        return v;
    }
    Slot {
        kind: 1,
        a: v.a,
        b: v.b,
        c: 0,
        d: 0,
    }
}

// The words of an entry: a mark is 5 and zeros. Without `marks` every slot is a value.
fn shown(v: Slot, marks: bool) -> Slot
    ensures { slot_bytes result ≡ bytes_in (entry_words (entry_or marks v)) }
{
    if marks {
        if v.kind == 5 {
            return Slot {
                kind: 5,
                a: 0,
                b: 0,
                c: 0,
                d: 0,
            };
        }
        return shown_value(v);
    }
    shown_value(v)
}

// A section from byte p on: the count, then the n slots from `first` on. Answers the place after it.
fn put_section(t: &mut [u8], p: usize, w: &[u8], first: usize, n: usize, marks: bool) -> usize
    requires { (20 * (first + n) ≤ length w.now) × (p + 4 + 20 * n ≤ length t.old) × (n ≤ 1024) }
    ensures { (result ≡ p + 4 + 20 * n) × (t.new ≡ sets t.old p (bytes_in (section_words (shown_from marks (slots w.now) first n)))) }
{
    table::words::put_word(t, p, table::words::word(n));
    for i in 0..n {
        let v = table::slots::get(w, first + i);
        table::slots::emit(t, p + 4 + 20 * i, shown(v, marks));
    }
    p + 4 + 20 * n
}

// The sections of a result: stack, frame, the cells past the first `before`; zero after the last value.
pub fn put_sections(t: &mut [u8], w: &[u8], q: Registers, before: usize)
    requires { (24052 ≤ length t.old) × Good w.now q × (before ≤ q.used) }
    ensures { t.new ≡ over (section_bytes (result_of before (abs w.now q))) t.old }
{
    table::slots::clear(t, 24052);
    let a = put_section(t, 0, w, 0, q.height, true);
    let b = put_section(t, a, w, 128, 50, false);
    put_section(t, b, w, 728 + before, q.used - before, false);
}
