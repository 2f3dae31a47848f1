// Words in bytes, little-endian: the lowest byte first.
ghost use Rattle.std.specs.Prelude.{[], ◌∷◌, ◌≡◌, ◌+◌, ◌*◌, ◌≤◌, length, get_or};
ghost use Rattle.wire.specs.Bytes.{word_at, put_word, words_of, put_words};

pub fn word_at(b: &[u8], at: usize) -> u64
    requires { at + 8 ≤ length b.now }
    ensures { result ≡ word_at b.now at }
{
    u64::from_le_bytes([
        b[at],
        b[at + 1],
        b[at + 2],
        b[at + 3],
        b[at + 4],
        b[at + 5],
        b[at + 6],
        b[at + 7],
    ])
}

pub fn put_word(b: &mut [u8], at: usize, x: u64)
    requires { at + 8 ≤ length b.old }
    ensures { b.new ≡ put_word b.old at x }
{
    b[at..at + 8].copy_from_slice(&x.to_le_bytes());
}

// Word i of the words that the bytes are.
pub fn number(b: &[u8], i: usize) -> u64
    requires { 8 * i + 8 ≤ length b.now }
    ensures { result ≡ get_or (words_of b.now) i 0 }
{
    word_at(b, 8 * i)
}

pub fn put_number(b: &mut [u8], i: usize, x: u64)
    requires { 8 * i + 8 ≤ length b.old }
    ensures { b.new ≡ put_words b.old i (x ∷ []) }
{
    put_word(b, 8 * i, x);
}
