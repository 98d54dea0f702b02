// Words and runs of bytes, read and stored.
ghost use Rattle.std.specs.Prelude.{◌≡◌, ◌+◌, ◌<◌, ◌≤◌, length};
ghost use Rattle.std.proofs.lemmas.List.Edits.{sets};
ghost use Rattle.table.specs.Words.{word_at, word_bytes};

// A count as a word.
pub fn word(x: usize) -> u32
    requires { x < 4294967296 }
    ensures { result ≡ x }
{
    x as u32
}

// A word as a count.
pub fn size(x: u32) -> usize
    ensures { (result ≡ x) × (result < 4294967296) }
{
    x as usize
}

// The word at byte `i`.
pub fn get_word(b: &[u8], i: usize) -> u32
    requires { i + 4 ≤ length b.now }
    ensures { result ≡ word_at b.now i }
{
    u32::from_le_bytes([b[i], b[i + 1], b[i + 2], b[i + 3]])
}

// Stores the word `w` at byte `i`.
pub fn put_word(b: &mut [u8], i: usize, w: u32)
    requires { i + 4 ≤ length b.old }
    ensures { b.new ≡ sets b.old i (word_bytes w) }
{
    b[i..i + 4].copy_from_slice(&w.to_le_bytes());
}

// Copies the bytes of `x` to `at` on. Not `copy_from_slice`: the archive would ask for `memmove` (docs/HOST.md).
pub fn copy(out: &mut [u8], at: usize, x: &[u8])
    requires { at + length x.now ≤ length out.old }
    ensures { out.new ≡ sets out.old at x.now }
{
    for i in 0..x.len() {
        out[at + i] = x[i];
    }
}
