// Steps from an offset of a part: blanks, and tokens after blanks.
ghost use Rattle.std.specs.Prelude.{◌≡◌, true, ◌+◌, ◌≤◌, length};
ghost use Rattle.lexing.specs.integers.{u64_max, positive_integer};
ghost use Rattle.lexing.specs.words.{tag, is_key, keyword};
ghost use Rattle.lexing.specs.blanks.{whitespace1};
ghost use Rattle.lexing.specs.answers.{BlankAt, SkipsAt, NumberAt, after_blanks};

use crate::answers::{Lost, Read, Step};
use crate::blanks::blank_run;
use crate::integers::positive_integer;
use crate::parts::{peek, rest_at};
use crate::words::{keyword, tag};

// The offset after blanks of any kind.
fn blank_end(part: &[u8], base: usize, c: usize) -> usize
    requires { ((base ≤ c) × (c ≤ base + length part.now)) × (base + length part.now ≤ u64_max) }
    ensures { BlankAt result base part.now c }
{
    blank_run(part, base, c).next
}

// The offset after blanks: `whitespace0` without the doc comment, as a plain number and in place.
pub fn blank_at(part: &[u8], base: usize, c: usize) -> usize
    requires { ((base ≤ c) × (c ≤ base + length part.now)) × (base + length part.now ≤ u64_max) }
    ensures { BlankAt result base part.now c }
{
    let i = c - base;
    let x = peek(part, i);
    if b'/' < x {
        return c;
    }
    if x == b' ' {
        if b'/' < peek(part, i + 1) {
            return c + 1;
        }
    }
    blank_end(part, base, c)
}

// At least one blank.
pub fn gap_at(part: &[u8], base: usize, c: usize) -> Step
    requires { ((base ≤ c) × (c ≤ base + length part.now)) × (base + length part.now ≤ u64_max) }
    ensures { SkipsAt whitespace1 result base part.now c }
{
    let n = blank_at(part, base, c);
    if n == c {
        return Err(Lost::Fail(c));
    }
    Ok(n)
}

// Blanks and a byte.
pub fn tag_after(part: &[u8], base: usize, c: usize, t: u8) -> Step
    requires { ((base ≤ c) × (c ≤ base + length part.now)) × (base + length part.now ≤ u64_max) }
    ensures { SkipsAt (after_blanks (tag t)) result base part.now c }
{
    let n = blank_at(part, base, c);
    tag(rest_at(part, base, n), n, t)
}

// Blanks and a keyword.
pub fn keyword_after(part: &[u8], base: usize, c: usize, key: &[u8]) -> Step
    requires base_le_c { ((base ≤ c) × (c ≤ base + length part.now)) × (base + length part.now ≤ u64_max) }
    requires key_value { is_key key.now ≡ true }
    ensures { SkipsAt (after_blanks (keyword key.now)) result base part.now c }
{
    let part = &part[..];
    let n = blank_at(part, base, c);
    let end = keyword(rest_at(part, base, n), n, key)?;
    Ok(end)
}

// Blanks and an integer.
pub fn integer_after(part: &[u8], base: usize, c: usize) -> Read<u64>
    requires { ((base ≤ c) × (c ≤ base + length part.now)) × (base + length part.now ≤ u64_max) }
    ensures { NumberAt (after_blanks positive_integer) result base part.now c }
{
    let part = &part[..];
    let n = blank_at(part, base, c);
    positive_integer(rest_at(part, base, n), n)
}
