// How many bytes a number or an identifier has; the value of bytes, high byte first, and two's complement of 1 to 4 bytes.
ghost use Rattle.std.specs.Prelude.{◌≡◌, ◌+◌, ◌*◌, ◌/◌, ◌%◌, ◌^◌, ◌<◌, ◌≤◌, ◌&&◌, leb, length};
ghost use Rattle.tokens.specs.Format.{longest_name};
ghost use Rattle.tokens.specs.Bytes.{value_after, signed_of};
ghost use Rattle.tokens.specs.Token.{integer_size, rational_size};

// An integer: 1 to 4 bytes.
pub fn integer_size(len: usize) -> bool
    ensures { result ≡ integer_size len }
{
    (1..=4).contains(&len)
}

// A rational: 2, 4, 6 or 8 bytes.
pub fn rational_size(len: usize) -> bool
    ensures { result ≡ rational_size len }
{
    len % 2 == 0 && (2..=8).contains(&len)
}

// An identifier: 1 to 100 bytes.
pub fn name_size(len: usize) -> bool
    ensures { result ≡ leb 1 len && leb len longest_name }
{
    (1..=100).contains(&len)
}

// The value of the part's bytes, set after the `had` bytes of value `before`.
pub fn value_after(before: u64, had: usize, part: &[u8]) -> u64
    requires { (had + length part.now ≤ 8) × (before < 2 ^ (8 * had)) }
    ensures { (result ≡ value_after before part.now) × (result < 2 ^ (8 * (had + length part.now))) }
{
    let mut v = before;
    for &b in part {
        v = (v << 8) | (b as u64);
    }
    v
}

// The number that `len` bytes of value `v` are in two's complement, sign-extended.
pub fn extended(v: u64, len: usize) -> i64
    requires { (len ≤ 4) × (v < 2 ^ (8 * len)) }
    ensures { result ≡ signed_of len v }
{
    let full = 1u64 << (8 * len);
    if v + v < full {
        v as i64
    } else {
        (v as i64) - (full as i64)
    }
}

// The value without its `h` low bytes.
pub fn high_half(v: u64, h: usize) -> u64
    requires { h ≤ 4 }
    ensures { result ≡ v / 2 ^ (8 * h) }
{
    v >> (8 * h)
}

// The value's `h` low bytes.
pub fn low_half(v: u64, h: usize) -> u64
    requires { h ≤ 4 }
    ensures { result ≡ v % 2 ^ (8 * h) }
{
    v & ((1u64 << (8 * h)) - 1)
}
