// A value read from a slot; a number put into one.
ghost use Rattle.std.specs.Prelude.{◌≡◌};
ghost use Rattle.table.specs.Slots.{mk};
ghost use Rattle.machine.specs.declared.Value.TheVariants.{Number};
ghost use Rattle.state.specs.Layout.{value_in};

use table::Slot;

pub fn zero() -> Slot
    ensures { result ≡ mk 1 0 1 0 0 }
{
    Slot {
        kind: 1,
        a: 0,
        b: 1,
        c: 0,
        d: 0,
    }
}

// The value in a slot.
pub fn value_of(v: Slot) -> machine::Value
    ensures { result ≡ value_in v }
{
    if v.kind == 2 {
        return machine::Value::Identifier {
            origin: v.a,
            start: v.b,
            len: v.c,
        };
    }
    if v.kind == 3 {
        return machine::Value::Vector {
            first: v.a % 2147483648,
            lower: v.b % 2147483648,
            count: v.c % 2147483648,
        };
    }
    if v.kind == 4 {
        return machine::Value::Operator {
            origin: v.a,
            start: v.b,
            len: v.c,
            first: v.d,
        };
    }
    machine::Value::Number(numbers::Number {
        num: numbers::words::of_word(v.a),
        den: v.b,
    })
}

// A slot for a number.
pub fn number_slot(a: numbers::Number) -> Slot
    ensures { (value_in result ≡ Number a) × (result.kind ≡ 5 → ⊥) }
{
    Slot {
        kind: 1,
        a: numbers::words::to_word(a.num),
        b: a.den,
        c: 0,
        d: 0,
    }
}

// The same value, and no mark, whatever the words are.
pub fn plain(v: Slot) -> Slot
    ensures { (value_in result ≡ value_in v) × (result.kind ≡ 5 → ⊥) }
{
    if v.kind == 5 {
        let mut q = v;
        q.kind = 1;
        return q;
    }
    v
}
