// Numbers from outside: 64 bits, signed.
ghost use Rattle.std.specs.Prelude.{◌≡◌, true, ◌&&◌, pos, nat_abs};
ghost use Rattle.std.specs.Int.Signed.{le_z};

pub fn within(x: i64, low: i64, high: i64) -> bool
    ensures { result ≡ (le_z low x && le_z x high) }
{
    (low..=high).contains(&x)
}

// One that is not below zero, as a count.
pub fn count(x: i64) -> usize
    requires { le_z (pos 0) x ≡ true }
    ensures { result ≡ nat_abs x }
{
    x as usize
}
