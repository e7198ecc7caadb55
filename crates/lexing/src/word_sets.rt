// Word sets: the keywords before a field, a struct, an event, a command or an attribute, in any order and with blanks between them.
ghost use Rattle.std.specs.Prelude.{◌≡◌, true, ◌+◌, ◌^◌, ◌≤◌, ◌<◌, length, take, map};
ghost use Rattle.lexing.specs.integers.{u64_max};
ghost use Rattle.lexing.specs.words.{is_key, is_lower};
ghost use Rattle.lexing.specs.answers.{set_of, WordSetTo};
ghost use Rattle.lexing.specs.inner.word_sets.{KeywordEnd, set_gap, start_reply, with_flag, initial, LowerAt, EightFlag};

use crate::blanks::whitespace0;
use crate::bytes::lower_of;
use crate::eights::{eight_at, non_capitals};
use crate::parts::{peek, rest_at};
use crate::words::keyword;

// The sets that the Rust reads, by what their keywords stand before; that of a field is a struct's. `Empty` has no keyword.
#[derive(Clone, Copy)]
pub enum KeywordSet {
    Field,
    Struct,
    Event,
    Command,
    Attribute,
    Empty,
}

// The flags of the words that are written in lower case, the first keyword's bit the highest, and the offset after the last word.
#[derive(Clone, Copy)]
pub struct WordSet {
    pub flags: u8,
    pub next: usize,
}

// The keywords of a set.
fn keywords_of(set: KeywordSet) -> &'static [&'static [u8]]
    ensures { map (λ k. k.now) result.now ≡ set_of set }
{
    match set {
        KeywordSet::Field => &[b"optional", b"nullable", b"fabric_sensitive"],
        KeywordSet::Struct => &[b"fabric_scoped"],
        KeywordSet::Event => &[b"fabric_sensitive"],
        KeywordSet::Command => &[b"timed", b"fabric"],
        KeywordSet::Attribute => &[b"readonly", b"writeonly", b"nosubscribe", b"timedwrite"],
        KeywordSet::Empty => &[],
    }
}

// The offset after a keyword, or base where it is not there: a plain number.
fn keyword_end(part: &[u8], base: usize, key: &[u8]) -> usize
    requires part_bound { base + length part.now ≤ u64_max }
    requires key_value { is_key key.now ≡ true }
    ensures { KeywordEnd key.now base part.now result }
{
    let Ok(end) = keyword(part, base, key) else {
        return base;
    };
    end
}

// Whether a keyword of a set begins with a byte.
fn is_initial(set: KeywordSet, x: u8) -> bool
    ensures { result ≡ initial x (set_of set) }
{
    match set {
        KeywordSet::Field => matches!(x, b'o' | b'n' | b'f'),
        KeywordSet::Struct | KeywordSet::Event => x == b'f',
        KeywordSet::Command => matches!(x, b't' | b'f'),
        KeywordSet::Attribute => matches!(x, b'r' | b'w' | b'n' | b't'),
        KeywordSet::Empty => false,
    }
}

// Of the first n bytes, how many are passed eight at a time with no capital letter among them.
fn lower_run(part: &[u8], n: usize) -> usize
    requires { n ≤ length part.now }
    ensures { LowerAt part.now n result }
{
    // A stride of eight: a count of `chunks_exact`'s chunks is no plainer, since the answer is a place and the rest is left to the caller.
    let mut i = 0;
    while 8 <= n - i {
        if non_capitals(eight_at(part, i)) != 0x8080_8080_8080_8080 {
            return i;
        }
        i += 8;
    }
    i
}

// Whether the first n bytes are in lower case.
pub fn is_lower(part: &[u8], n: usize) -> bool
    requires { n ≤ length part.now }
    ensures { result ≡ is_lower (take n part.now) }
{
    let i = lower_run(part, n);
    part[i..n].iter().all(|x| lower_of(*x) == *x)
}

// The flags with that of a keyword which so many others follow, where the word counts.
fn with_flag(flags: u8, others: usize, counts: bool) -> u8
    requires flags_bound { flags < 16 }
    requires others_bound { others < 4 }
    ensures { result ≡ with_flag counts (2 ^ others) flags }
{
    if counts { flags | (1 << others) } else { flags }
}

// A blank before each word but the first; without it the set has ended.
fn word_start(part: &[u8], base: usize, first: bool) -> Option<usize>
    requires { base + length part.now ≤ u64_max }
    ensures { start_reply result base part.now ≡ set_gap first base part.now }
{
    if first {
        return Some(base);
    }
    let b = whitespace0(part, base);
    let next = b.next;
    if next == base {
        return None;
    }
    Some(next)
}

// The words of a set. It ends at the first word that isn't in it: after the last keyword of the walk, or before the walk where no keyword begins like
// the word.
fn words_of_set(part: &[u8], base: usize, set: KeywordSet) -> WordSet
    requires { base + length part.now ≤ u64_max }
    ensures { WordSetTo result set base part.now }
{
    let part = &part[..];
    let keywords = keywords_of(set);
    let mut flags = 0;
    let mut next = base;
    let mut first = true;
    'words: loop {
        let Some(start) = word_start(rest_at(part, base, next), next, first) else {
            break 'words WordSet { flags, next };
        };
        let rest = rest_at(part, base, start);
        if !is_initial(set, lower_of(peek(rest, 0))) {
            break 'words WordSet { flags, next };
        }
        for (k, key) in keywords.iter().enumerate() {
            let end = keyword_end(rest, start, key);
            if start < end {
                flags = with_flag(flags, keywords.len() - 1 - k, is_lower(rest, end - start));
                next = end;
                first = false;
                continue 'words;
            }
        }
        break 'words WordSet { flags, next };
    }
}

// The flag of the keyword of eight bytes whose bytes are those of w, 0 where the set has none such.
fn eight_flag(set: KeywordSet, w: u64) -> u8
    ensures { EightFlag result set w }
{
    match (set, w) {
        // readonly
        (KeywordSet::Attribute, 0x796c_6e6f_6461_6572) => 8,
        // optional
        (KeywordSet::Field, 0x6c61_6e6f_6974_706f) => 4,
        // nullable
        (KeywordSet::Field, 0x656c_6261_6c6c_756e) => 2,
        _ => 0,
    }
}

// The words of a set, where the first byte may begin one. Most such sets are one keyword of eight bytes in lower case, with a space after it and
// then a byte that begins neither a blank nor a keyword: ten bytes, a short front, tell that without the loop over words.
fn words_by_front(part: &[u8], base: usize, set: KeywordSet) -> WordSet
    requires { base + length part.now ≤ u64_max }
    ensures { WordSetTo result set base part.now }
{
    let part = &part[..];
    if part.len() < 10 {
        return words_of_set(part, base, set);
    }
    let flag = eight_flag(set, eight_at(part, 0));
    if flag == 0 {
        return words_of_set(part, base, set);
    }
    if part[8] != b' ' {
        return words_of_set(part, base, set);
    }
    let y = part[9];
    if y <= b'/' {
        return words_of_set(part, base, set);
    }
    if is_initial(set, lower_of(y)) {
        return words_of_set(part, base, set);
    }
    WordSet {
        flags: flag,
        next: base + 8,
    }
}

// The words of a set. Most sets have no word, which the first byte tells: a short front.
pub fn keywords_set(part: &[u8], base: usize, set: KeywordSet) -> WordSet
    requires { base + length part.now ≤ u64_max }
    ensures { WordSetTo result set base part.now }
{
    let x = peek(part, 0);
    if is_initial(set, x) {
        return words_by_front(part, base, set);
    }
    if is_initial(set, lower_of(x)) {
        return words_by_front(part, base, set);
    }
    WordSet {
        flags: 0,
        next: base,
    }
}
