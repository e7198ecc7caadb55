// Eight bytes as one number, the first byte the lowest, and tests of all eight at once.
ghost use Rattle.std.specs.Prelude.{◌≡◌, ◌+◌, ◌≤◌, length};
ghost use Rattle.lexing.specs.inner.eights.{pack, bytes_from, failing, is_alpha, is_ascii, is_byte, is_capital};

// Four bytes as a number. Only a sum in this order is one load: with `u64::from_le_bytes` of a copied part, and `from_be_bytes` in items'
// `word_at`, reading is 8 to 15 percent slower.
fn four_at(part: &[u8], i: usize) -> u64
    requires { i + 4 ≤ length part.now }
    ensures { result ≡ pack 4 (bytes_from part.now i) }
{
    u64::from(part[i])
        + u64::from(part[i + 1]) * 0x100
        + u64::from(part[i + 2]) * 0x1_0000
        + u64::from(part[i + 3]) * 0x100_0000
}

// Eight bytes as a number.
pub fn eight_at(part: &[u8], i: usize) -> u64
    requires { i + 8 ≤ length part.now }
    ensures { result ≡ pack 8 (bytes_from part.now i) }
{
    four_at(part, i) + four_at(part, i + 4) * 0x1_0000_0000
}

// The highest bit of each byte that is not ASCII; no other bit is set.
pub fn non_ascii(w: u64) -> u64
    ensures { result ≡ failing is_ascii w }
{
    w & 0x8080_8080_8080_8080
}

// The highest bit of each byte that is no letter from a to z in either case; no other bit is set.
pub fn non_letters(w: u64) -> u64
    ensures { result ≡ failing is_alpha w }
{
    let folded = (w & 0x7f7f_7f7f_7f7f_7f7f) | 0x2020_2020_2020_2020;
    let outside = (0xe0e0_e0e0_e0e0_e0e0 - folded) | (folded + 0x0505_0505_0505_0505);
    (outside | w) & 0x8080_8080_8080_8080
}

// The highest bit of each byte that is not x; no other bit is set.
pub fn bytes_other_than(w: u64, x: u8) -> u64
    ensures { result ≡ failing (is_byte x) w }
{
    let other = w ^ (u64::from(x) * 0x0101_0101_0101_0101);
    let some = (other & 0x7f7f_7f7f_7f7f_7f7f) + 0x7f7f_7f7f_7f7f_7f7f;
    (some | other) & 0x8080_8080_8080_8080
}

// The highest bit of each byte that is no capital letter; no other bit is set.
pub fn non_capitals(w: u64) -> u64
    ensures { result ≡ failing is_capital w }
{
    let low = w & 0x7f7f_7f7f_7f7f_7f7f;
    let outside = (0xc0c0_c0c0_c0c0_c0c0 - low) | (low + 0x2525_2525_2525_2525);
    (outside | w) & 0x8080_8080_8080_8080
}
