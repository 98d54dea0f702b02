// The header of a master, and how long a master may be.
ghost use Rattle.std.specs.Prelude.{◌≡◌};
ghost use Rattle.tokens.specs.Format.{header, starts};

// The longest master, and the longest written form.
pub const LONGEST: usize = 16777215;

// The header stands at the beginning of s.
pub fn begins(s: &[u8]) -> bool
    ensures { result ≡ starts header s.now }
{
    s.starts_with(b"Interpress/Xerox/3.0 ")
}
