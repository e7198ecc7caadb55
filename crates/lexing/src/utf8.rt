// The test for well-formed UTF-8.
ghost use Rattle.std.specs.Prelude.{◌≡◌, ◌+◌, ◌≤◌, ◌<◌, Some, length, drop, get_or};
ghost use Rattle.lexing.specs.integers.{u64_max};
ghost use Rattle.lexing.specs.utf8.{utf8_error};
ghost use Rattle.lexing.specs.inner.utf8.{size_of, sequence_size, later, Bounds, AsciiAt};

use crate::bytes::is_between;
use crate::eights::{eight_at, non_ascii};

// The size n of a sequence whose second byte must be from lo to hi; none where it is cut off, or a byte after its first is out of range.
fn size_by(rest: &[u8], n: usize, lo: u8, hi: u8) -> Option<usize>
    requires { 2 ≤ n }
    ensures { result ≡ size_of (Some (later n lo hi)) (drop 1 rest.now) }
{
    if rest.len() < n || !is_between(lo, hi, rest[1]) {
        return None;
    }
    for &x in &rest[2..n] {
        if !is_between(0x80, 0xbf, x) {
            return None;
        }
    }
    Some(n)
}

// The size of the well-formed sequence at the front, if any: an arm for each row of the Unicode Standard's table 3-7.
// ASCII, the table's first row, is not asked here.
fn sequence_size(rest: &[u8]) -> Option<usize>
    requires { (0 < length rest.now) × (0x80 ≤ get_or rest.now 0 0) }
    ensures { result ≡ sequence_size rest.now }
{
    match rest[0] {
        0xc2..=0xdf => size_by(rest, 2, 0x80, 0xbf),
        0xe0 => size_by(rest, 3, 0xa0, 0xbf),
        0xe1..=0xec => size_by(rest, 3, 0x80, 0xbf),
        0xed => size_by(rest, 3, 0x80, 0x9f),
        0xee..=0xef => size_by(rest, 3, 0x80, 0xbf),
        0xf0 => size_by(rest, 4, 0x90, 0xbf),
        0xf1..=0xf3 => size_by(rest, 4, 0x80, 0xbf),
        0xf4 => size_by(rest, 4, 0x80, 0x8f),
        _ => None,
    }
}

// Sixty-four bytes joined bit by bit, which the compiler does by vectors.
fn or_64(part: &[u8], i: usize) -> u8
    requires { i + 64 ≤ length part.now }
    ensures { Bounds result part.now i 64 }
{
    let mut joined = 0;
    for j in 0..64 {
        joined |= part[i + j];
    }
    joined
}

// How many bytes a turn passes at an ASCII byte: that byte and the 64 after it where all are ASCII, as in most texts; else those before the first
// of eight that is not ASCII. Where fewer than eight are left it passes one.
fn ascii_step(part: &[u8], i: usize) -> usize
    requires { (i < length part.now) × (get_or part.now i 0 < 0x80) }
    ensures { AsciiAt part.now i result }
{
    // Strides, no `chunks_exact`: a turn begins at any offset, and what it passes is answered as a count.
    let left = part.len() - i;
    if left < 8 {
        return 1;
    }
    if 65 <= left {
        if or_64(part, i + 1) < 0x80 {
            return 65;
        }
    }
    let m = non_ascii(eight_at(part, i));
    if m == 0 {
        return 8;
    }
    (u64::trailing_zeros(m) / 8) as usize
}

// Where a part is not well-formed UTF-8, if anywhere: the offset of the first byte of the first ill-formed sequence; base is the offset of the part's
// first byte. A turn passes ASCII bytes, or a longer sequence.
pub fn utf8_error(part: &[u8], base: usize) -> Option<usize>
    requires { base + length part.now ≤ u64_max }
    ensures { result ≡ utf8_error base part.now }
{
    let mut i = 0;
    // No `for`: a turn passes as many bytes as `ascii_step` or `sequence_size` answers.
    while i < part.len() {
        if part[i] < 0x80 {
            i += ascii_step(part, i);
            continue;
        }
        let Some(n) = sequence_size(&part[i..]) else {
            return Some(base + i);
        };
        i += n;
    }
    None
}
