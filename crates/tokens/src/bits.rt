// Fields of a token's first bytes, taken out and put in by shifts and masks.
ghost use Rattle.std.specs.Prelude.{◌≡◌, ◌+◌, ◌*◌, ◌/◌, ◌%◌, ◌<◌};

// The class of a token: the top three bits of its first byte.
pub fn class_of(b: u8) -> u8
    ensures { result ≡ b / 32 }
{
    b >> 5
}

// The low five bits of a first byte: a short operator's number, or a sequence's type.
pub fn low5(b: u8) -> u8
    ensures { result ≡ b % 32 }
{
    b & 31
}

// A long operator's number: five bits, and the next byte.
pub fn op_number(a: u8, b: u8) -> u16
    ensures { result ≡ a % 32 * 256 + b }
{
    (((a & 31) as u16) << 8) | (b as u16)
}

// A short number's 15 bits.
pub fn short15(a: u8, b: u8) -> u16
    ensures { result ≡ a % 128 * 256 + b }
{
    (((a & 127) as u16) << 8) | (b as u16)
}

// The byte of a short operator token.
pub fn short_first(n: u16) -> u8
    requires { n < 32 }
    ensures { result ≡ 128 + n }
{
    128 | (n as u8)
}

// The first byte of a long operator token.
pub fn long_first(n: u16) -> u8
    requires { n < 8192 }
    ensures { result ≡ 160 + n / 256 }
{
    160 | ((n >> 8) as u8)
}

// The second byte of a long operator token.
pub fn low_byte(n: u16) -> u8
    ensures { result ≡ n % 256 }
{
    (n & 255) as u8
}
