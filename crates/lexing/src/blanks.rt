// Blanks: white space and comments.
ghost use Rattle.std.specs.Prelude.{ℕ, Bool, ◌≡◌, false, ◌+◌, ◌-◌, ◌≤◌, ◌<◌, length, drop, get_or};
ghost use Rattle.lexing.specs.bytes.{slash, is_space, in_line, list_take_while};
ghost use Rattle.lexing.specs.integers.{u64_max};
ghost use Rattle.lexing.specs.blanks.{until_close, whitespace_group, one_blank, whitespace1};
ghost use Rattle.lexing.specs.inner.blanks.{IsTest, is_close, end_until, turn_reply};
ghost use Rattle.lexing.specs.answers.{group_reply, doc_of, BlankTo, gap_reply};

use crate::answers::Lost;
use crate::bytes::{is_in_line, is_space};
use crate::parts::{after, eight_without, peek, rest_at};

// A doc comment's text: its offset and its length.
#[derive(Clone, Copy)]
pub struct DocSpan {
    pub offset: usize,
    pub size: usize,
}

// A run of blanks: the offset after it, and the doc comment that counts.
#[derive(Clone, Copy)]
pub struct Blank {
    pub next: usize,
    pub doc: Option<DocSpan>,
}

// One blank: its kind and its length; of a doc comment the length of its text.
#[derive(Clone, Copy)]
pub enum Group {
    White(usize),
    Plain(usize),
    DocComment(usize),
}

// How many bytes are at the front that pass a test.
fn run_length<F: Fn(u8) -> bool>(part: &[u8], passes: F) -> usize
    requires { F.IsAlwaysCallable passes }
    ensures { (f : ℕ → Bool) → IsTest (F.post passes) f → result ≡ length (list_take_while f part.now) }
{
    // A counted `while`: with `position` annotations are read 10 percent slower (bench/turns).
    let mut i = 0;
    while i < part.len() {
        if !passes(part[i]) {
            return i;
        }
        i += 1;
    }
    i
}

// Whether `*/` is at a place.
fn is_close_at(part: &[u8], i: usize) -> bool
    requires { i < length part.now }
    ensures { result ≡ is_close (get_or part.now i 0) (get_or part.now (i + 1) 0) }
{
    if part[i] != b'*' {
        return false;
    }
    peek(part, i + 1) == b'/'
}

// How many bytes are before the first `*/`. A turn passes eight bytes without a star, as most are, else one.
fn comment_end(part: &[u8]) -> Option<usize>
    ensures { end_until result part.now ≡ until_close part.now }
{
    // A stride of eight: the same search in C by single bytes takes 2.3 times as long (bench/tokens.sh, block comments).
    let mut i = 0;
    while i < part.len() {
        if eight_without(part, i, b'*') {
            i += 8;
            continue;
        }
        if is_close_at(part, i) {
            return Some(i);
        }
        i += 1;
    }
    None
}

// A line comment or a block comment; the part starts with a slash.
fn comment_group(part: &[u8], base: usize) -> Option<Group>
    requires part_bound { base + length part.now ≤ u64_max }
    requires part_value { get_or part.now 0 0 ≡ slash }
    ensures { group_reply result base part.now ≡ whitespace_group base part.now }
{
    let y = peek(part, 1);
    if y == b'/' {
        let n = run_length(after(part, 2), is_in_line);
        if 0 < n {
            return Some(Group::Plain(2 + n));
        }
        return None;
    }
    if y != b'*' {
        return None;
    }
    let n = comment_end(after(part, 2))?;
    if n == 0 {
        return Some(Group::Plain(4));
    }
    if peek(part, 2) == b'*' {
        return Some(Group::DocComment(n - 1));
    }
    Some(Group::Plain(n + 4))
}

// One blank: `whitespace_group` of the Rust, which nothing here calls, since a run of blanks takes white space and comments apart.
pub fn whitespace_group(part: &[u8], base: usize) -> Option<Group>
    requires { base + length part.now ≤ u64_max }
    ensures { group_reply result base part.now ≡ whitespace_group base part.now }
{
    if peek(part, 0) == b'/' {
        return comment_group(part, base);
    }
    let n = run_length(part, is_space);
    if 0 < n {
        return Some(Group::White(n));
    }
    None
}

// The offset after the white space at an offset.
fn skip_white(part: &[u8], base: usize, at: usize) -> usize
    requires base_le_at { base ≤ at }
    requires at_bound { at ≤ base + length part.now }
    requires part_bound { base + length part.now ≤ u64_max }
    ensures { result ≡ at + length (list_take_while is_space (drop (at - base) part.now)) }
{
    let n = run_length(rest_at(part, base, at), is_space);
    at + n
}

// One more blank, or the end of the run. No white space is there, so it is a comment.
fn one_blank(part: &[u8], base: usize, b: Blank) -> Option<Blank>
    requires base_le_next { base ≤ b.next }
    requires next_bound { b.next ≤ base + length part.now }
    requires base_value { is_space (get_or part.now (b.next - base) 0) ≡ false }
    requires part_bound { base + length part.now ≤ u64_max }
    ensures { turn_reply result b.next (drop (b.next - base) part.now) ≡ one_blank (doc_of b.doc) b.next (drop (b.next - base) part.now) }
{
    let at = b.next;
    let rest = rest_at(part, base, at);
    if peek(rest, 0) != b'/' {
        return None;
    }
    match comment_group(rest, at)? {
        Group::White(n) => Some(Blank {
            next: at + n,
            doc: b.doc,
        }),
        Group::Plain(n) => Some(Blank {
            next: at + n,
            doc: None, // the last comment decides
        }),
        Group::DocComment(n) => Some(Blank {
            next: at + (n + 5),
            doc: Some(DocSpan {
                offset: at + 3,
                size: n,
            }),
        }),
    }
}

// Blanks from after the white space at the front on: comments with the white space after each.
fn more_blanks(part: &[u8], base: usize, from: usize) -> Blank
    requires part_bound { base + length part.now ≤ u64_max }
    requires from_value { from ≡ base + length (list_take_while is_space part.now) }
    ensures { BlankTo result base part.now }
{
    let mut b = Blank {
        next: from,
        doc: None,
    };
    while let Some(c) = one_blank(part, base, b) {
        b = Blank {
            next: skip_white(part, base, c.next),
            doc: c.doc,
        };
    }
    b
}

// Any number of blanks at an offset, without a test for the common cases first: `whitespace0` and `steps::blank_at` are its short fronts.
pub fn blank_run(part: &[u8], base: usize, c: usize) -> Blank
    requires { ((base ≤ c) × (c ≤ base + length part.now)) × (base + length part.now ≤ u64_max) }
    ensures { BlankTo result c (drop (c - base) part.now) }
{
    let part = &part[..];
    let rest = rest_at(part, base, c);
    let n = run_length(rest, is_space);
    let next = c + n;
    if peek(rest, n) == b'/' {
        return more_blanks(rest, c, next);
    }
    Blank { next, doc: None }
}

// Any number of blanks. No byte above the slash starts one, and most calls end with that test, or with a single space before such a byte.
pub fn whitespace0(part: &[u8], base: usize) -> Blank
    requires { base + length part.now ≤ u64_max }
    ensures { BlankTo result base part.now }
{
    let x = peek(part, 0);
    if b'/' < x {
        return Blank {
            next: base,
            doc: None,
        };
    }
    if x == b' ' {
        if b'/' < peek(part, 1) {
            return Blank {
                next: base + 1,
                doc: None,
            };
        }
    }
    blank_run(part, base, base)
}

// At least one blank, with its doc comment. Only tests call it; the readers call `steps::gap_at`, which drops the doc comment.
pub fn whitespace1(part: &[u8], base: usize) -> Result<Blank, Lost>
    requires { base + length part.now ≤ u64_max }
    ensures { gap_reply result base part.now ≡ whitespace1 base part.now }
{
    let b = whitespace0(part, base);
    let next = b.next;
    if next == base {
        return Err(Lost::Fail(base));
    }
    Ok(b)
}
