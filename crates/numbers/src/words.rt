// A signed number as the word of its bits, two's complement, and back.
ghost use Rattle.std.specs.Prelude.{◌≡◌};
ghost use Rattle.std.specs.Int.{w32};
ghost use Rattle.std.proofs.Common.{of_z, to_z};

pub fn to_word(v: i32) -> u32
    ensures { result ≡ of_z w32 v }
{
    v.cast_unsigned()
}

pub fn of_word(x: u32) -> i32
    ensures { result ≡ to_z w32 x }
{
    x.cast_signed()
}
