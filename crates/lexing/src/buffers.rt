// Words written into a buffer that the caller lends.
ghost use Rattle.std.specs.Prelude.{◌≡◌, ◌+◌, ◌*◌, ◌≤◌, length};
ghost use Rattle.lexing.specs.buffers.{put, big_endian, words_bytes};

// Words one after the other.
pub fn put_words<const N: usize>(out: &mut [u8], at: usize, words: [u64; N])
    requires { at + 8 * N ≤ length out.old }
    ensures { out.new ≡ put at (words_bytes words.entry) out.old }
{
    for k in 0..N {
        put_word(out, at + 8 * k, words[k]);
    }
}

// A word as eight bytes, the most significant first.
pub fn put_word(out: &mut [u8], at: usize, w: u64)
    requires { at + 8 ≤ length out.old }
    ensures { out.new ≡ put at (big_endian 8 w) out.old }
{
    out[at..at + 8].copy_from_slice(&w.to_be_bytes());
}
