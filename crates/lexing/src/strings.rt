// Strings in quotes.
ghost use Rattle.std.specs.Prelude.{ℕ, ◌≡◌, ◌+◌, ◌≤◌, length};
ghost use Rattle.lexing.specs.integers.{u64_max};
ghost use Rattle.lexing.specs.strings.{Escape, annotation_escape, default_escape, string_with, quoted_string, default_string};
ghost use Rattle.lexing.specs.inner.strings.{escape_of, IsEscape, piece_inside, piece_is};
ghost use Rattle.lexing.specs.answers.{string_reply};

use crate::answers::{Lost, Refusal, Step};
use crate::parts::rest_at;

// How a byte after a backslash counts.
#[derive(Clone, Copy)]
enum Escaped {
    Allowed,
    Forbidden,
    Panics,
}

// A piece of a string, or its end: the offset after it.
#[derive(Clone, Copy)]
enum Piece {
    More(usize),
    Last(usize),
}

// Annotations allow two escapes.
fn annotation_escape(x: u8) -> Escaped
    ensures { escape_of result ≡ annotation_escape x }
{
    match x {
        b'"' => Escaped::Allowed,
        b'\\' => Escaped::Allowed,
        _ => Escaped::Forbidden,
    }
}

// Defaults allow four.
fn default_escape(x: u8) -> Escaped
    ensures { escape_of result ≡ default_escape x }
{
    match x {
        b'"' => Escaped::Allowed,
        b'\\' => Escaped::Allowed,
        b'n' => Escaped::Allowed,
        b't' => Escaped::Allowed,
        b'r' => Escaped::Panics,
        _ => Escaped::Forbidden,
    }
}

// One byte of a string, one escape, or its end.
fn string_piece<F: Fn(u8) -> Escaped>(part: &[u8], base: usize, escape: F) -> Result<Piece, Lost>
    requires part_bound { base + length part.now ≤ u64_max }
    requires escape_called { F.IsAlwaysCallable escape }
    ensures inside { piece_inside base part.now result }
    ensures reads { (f : ℕ → Escape) → IsEscape (F.post escape) f → piece_is f base part.now result }
{
    if part.len() == 0 {
        return Err(Lost::Fail(base));
    }
    let x = part[0];
    let next = base + 1;
    if x == b'"' {
        return Ok(Piece::Last(next));
    }
    if x != b'\\' {
        return Ok(Piece::More(next));
    }
    if part.len() == 1 {
        return Err(Lost::Fail(base));
    }
    match escape(part[1]) {
        Escaped::Allowed => Ok(Piece::More(base + 2)),
        Escaped::Forbidden => Err(Lost::Fail(base)),
        Escaped::Panics => Err(Lost::Stop(Refusal::EscapedReturn, base)),
    }
}

// A string in quotes, by how a byte after a backslash counts.
fn string_with<F: Fn(u8) -> Escaped>(part: &[u8], base: usize, escape: F) -> Step
    requires part_bound { base + length part.now ≤ u64_max }
    requires escape_called { F.IsAlwaysCallable escape }
    ensures { (f : ℕ → Escape) → IsEscape (F.post escape) f → string_reply result base part.now ≡ string_with f base part.now }
{
    if part.len() == 0 {
        return Err(Lost::Fail(base));
    }
    if part[0] != b'"' {
        return Err(Lost::Fail(base));
    }
    let mut c = base + 1;
    loop {
        match string_piece(rest_at(part, base, c), c, &escape)? {
            Piece::More(next) => c = next,
            Piece::Last(end) => return Ok(end),
        }
    }
}

// The string of an annotation.
pub fn quoted_string(part: &[u8], base: usize) -> Step
    requires { base + length part.now ≤ u64_max }
    ensures { string_reply result base part.now ≡ quoted_string base part.now }
{
    string_with(part, base, annotation_escape)
}

// The string of a default value.
pub fn default_string(part: &[u8], base: usize) -> Step
    requires { base + length part.now ≤ u64_max }
    ensures { string_reply result base part.now ≡ default_string base part.now }
{
    string_with(part, base, default_escape)
}
