// Words, keywords and tags.
ghost use Rattle.std.specs.Prelude.{◌≡◌, true, ◌+◌, ◌-◌, ◌≤◌, length};
ghost use Rattle.lexing.specs.integers.{u64_max};
ghost use Rattle.lexing.specs.words.{parse_id, is_key_letter, is_key, keyword, tag};
ghost use Rattle.lexing.specs.answers.{word_reply, WordAt, tag_reply};
ghost use Rattle.lexing.specs.inner.words.{word_end, is_key_byte, KeyAt, HasKey};

use crate::answers::{Lost, Step};
use crate::bytes::{is_between, is_digit, is_word};
use crate::eights::{eight_at, non_letters};
use crate::parts::peek;

// The place after the letters from a place on, which are passed eight at a time; bytes of a word may follow.
fn letters(part: &[u8], from: usize) -> usize
    requires { from ≤ length part.now }
    ensures { (result ≤ length part.now) × (word_end part.now from ≡ word_end part.now result) }
{
    // A stride of eight: a count of `chunks_exact`'s chunks is no plainer, since the answer is a place and the rest is left to the caller.
    let mut i = from;
    while 8 <= part.len() - i {
        let m = non_letters(eight_at(part, i));
        if m != 0 {
            return i + (u64::trailing_zeros(m) / 8) as usize;
        }
        i += 8;
    }
    i
}

// The place after the bytes of a word from a place on, which are passed one by one.
fn word_tail(part: &[u8], n: usize) -> usize
    requires { n ≤ length part.now }
    ensures { result ≡ word_end part.now n }
{
    // A counted `while`: with a `for` over n..part.len() entries are read 5 percent slower (bench/turns).
    let mut i = n;
    while i < part.len() {
        if !is_word(part[i]) {
            return i;
        }
        i += 1;
    }
    i
}

// The same, with the letters passed first.
fn word_end(part: &[u8], i: usize) -> usize
    requires { i ≤ length part.now }
    ensures { result ≡ word_end part.now i }
{
    word_tail(part, letters(part, i))
}

// The word at an offset of a part, where it ends at place e.
fn word_by_end(part: &[u8], base: usize, c: usize, e: usize) -> Step
    requires base_le_c { ((base ≤ c) × (c ≤ base + length part.now)) × (base + length part.now ≤ u64_max) }
    requires e_value { e ≡ word_end part.now (c - base) }
    ensures { WordAt parse_id result base part.now c }
{
    let i = c - base;
    if e == i {
        return Err(Lost::Fail(c));
    }
    if is_digit(part[i]) {
        return Err(Lost::Fail(c));
    }
    Ok(base + e)
}

// A name at an offset of a part, read in place.
pub fn id_at(part: &[u8], base: usize, c: usize) -> Step
    requires { ((base ≤ c) × (c ≤ base + length part.now)) × (base + length part.now ≤ u64_max) }
    ensures { WordAt parse_id result base part.now c }
{
    word_by_end(part, base, c, word_end(part, c - base))
}

// A name at the front. Only tests call it; the readers call `id_at`.
pub fn parse_id(part: &[u8], base: usize) -> Step
    requires { base + length part.now ≤ u64_max }
    ensures { word_reply result base part.now ≡ parse_id base part.now }
{
    id_at(part, base, base)
}

// Whether a keyword can have a byte.
fn is_key_letter(x: u8) -> bool
    ensures { result ≡ is_key_letter x }
{
    x.is_ascii_lowercase() || x == b'_'
}

// Whether bytes are a keyword that `keyword` takes, for a caller that does not know it: only what the measurements call does not.
pub fn is_key(key: &[u8]) -> bool
    ensures { result ≡ is_key key.now }
{
    !key.is_empty() && key.iter().all(|x| is_key_letter(*x))
}

// Whether a byte is one of a word and, in lower case, the keyword's byte k. The bit 0x20 is all that tells a capital letter from a small one.
fn is_key_byte(x: u8, k: u8) -> bool
    requires { is_key_letter k ≡ true }
    ensures { result ≡ is_key_byte x k }
{
    x == k || (x | 0x20) == k
}

// How many of a keyword's bytes are at the front as they are, where eight are compared at once: eight or none.
fn eight_alike(part: &[u8], key: &[u8]) -> usize
    requires key_in_bounds { length key.now ≤ length part.now }
    requires key_value { is_key key.now ≡ true }
    ensures { KeyAt key.now part.now result }
{
    if key.len() < 8 {
        return 0;
    }
    if eight_at(part, 0) == eight_at(key, 0) {
        return 8;
    }
    0
}

// Whether a keyword's bytes are at the front. Most are written in lower case.
fn has_key(part: &[u8], key: &[u8]) -> bool
    requires { is_key key.now ≡ true }
    ensures { HasKey result key.now part.now }
{
    if part.len() < key.len() {
        return false;
    }
    for i in eight_alike(part, key)..key.len() {
        if !is_key_byte(part[i], key[i]) {
            return false;
        }
    }
    true
}

// A whole word that is the keyword: its bytes are compared first, since most words differ in the first one. A keyword begins like a word, so
// that where it is and no byte of a word follows, it is the word.
pub fn keyword(part: &[u8], base: usize, key: &[u8]) -> Step
    requires part_bound { base + length part.now ≤ u64_max }
    requires key_value { is_key key.now ≡ true }
    ensures { word_reply result base part.now ≡ keyword key.now base part.now }
{
    if !has_key(part, key) {
        return Err(Lost::Fail(base));
    }
    let n = key.len();
    if is_word(peek(part, n)) {
        return Err(Lost::Fail(base));
    }
    Ok(base + n)
}

// One given byte.
pub fn tag(part: &[u8], base: usize, t: u8) -> Step
    requires { base + length part.now ≤ u64_max }
    ensures { tag_reply result base part.now ≡ tag t base part.now }
{
    if part.len() == 0 {
        return Err(Lost::Fail(base));
    }
    if part[0] == t {
        return Ok(base + 1);
    }
    Err(Lost::Fail(base))
}
