// Default values of attribute instances.
ghost use Rattle.std.specs.Prelude.{◌≡◌, ◌+◌, ◌≤◌, length};
ghost use Rattle.lexing.specs.answers.{signed_of};
ghost use Rattle.lexing.specs.integers.{signed};
ghost use Rattle.items.specs.layout.{text_limit, layout, further_word};
ghost use Rattle.items.specs.records.{twos_complement, default_number, default_word};
ghost use Rattle.items.specs.endpoints.{value_tries, default_attribute_value};
ghost use Rattle.items.specs.inner.defaults.{ValueTo, optional_value, DefaultTo, DefaultIn, default_of, NoNumberAt};

use crate::writing::span_word;
use lexing::answers::{Lost, Read};
use lexing::integers::{SignedParts, positive_integer, signed_integer};
use lexing::parts::rest_at;
use lexing::steps::{blank_at, gap_at, tag_after};
use lexing::strings::default_string;
use lexing::words::keyword;

// The bytes between two quotes.
#[derive(Clone, Copy)]
pub struct SpanParts {
    pub start: usize,
    pub length: usize,
}

// A default, or that there is none; a signed one is said to be negative or not, with its magnitude.
#[derive(Clone, Copy)]
pub enum DefaultValue {
    Absent,
    Number(u64),
    Signed(SignedParts),
    Truth(bool),
    Text(SpanParts),
}

// The value of a default where no number is. Each try but the last fails at its start, so the place of the last is the furthest.
fn word_value(part: &[u8], base: usize) -> Read<DefaultValue>
    requires part_bound { base + length part.now ≤ text_limit }
    requires no_number_at { NoNumberAt base part.now }
    ensures { ValueTo value_tries result base part.now }
{
    if let Ok(c) = keyword(part, base, b"true") {
        return Ok((DefaultValue::Truth(true), c));
    }
    if let Ok(c) = keyword(part, base, b"false") {
        return Ok((DefaultValue::Truth(false), c));
    }
    let c = default_string(part, base)?;
    let start = base + 1;
    let length = c - 1 - start;
    Ok((DefaultValue::Text(SpanParts { start, length }), c))
}

// The value of a default: numbers first.
fn value_tries(part: &[u8], base: usize) -> Read<DefaultValue>
    requires { base + length part.now ≤ text_limit }
    ensures { ValueTo value_tries result base part.now }
{
    match positive_integer(part, base) {
        Ok((v, c)) => return Ok((DefaultValue::Number(v), c)),
        Err(Lost::Stop(n, p)) => return Err(Lost::Stop(n, p)),
        Err(Lost::Fail(_)) => {}
    }
    if let Ok((s, c)) = signed_integer(part, base) {
        return Ok((DefaultValue::Signed(s), c));
    }
    word_value(part, base)
}

pub fn default_attribute_value(part: &[u8], base: usize) -> Read<DefaultValue>
    requires { base + length part.now ≤ text_limit }
    ensures { ValueTo default_attribute_value result base part.now }
{
    let c1 = keyword(part, base, b"default")?;
    let c2 = tag_after(part, base, c1, b'=')?;
    let c3 = blank_at(part, base, c2);
    value_tries(rest_at(part, base, c3), c3)
}

// A default that may be absent, at an offset: where it fails nothing is read, and a stop goes on.
fn optional_value(r: Read<DefaultValue>, base: usize) -> Read<DefaultValue>
    ensures { result ≡ optional_value r base }
{
    match r {
        Err(Lost::Fail(_)) => Ok((DefaultValue::Absent, base)),
        _ => r,
    }
}

// A blank and a default, or nothing.
pub fn optional_default(part: &[u8], base: usize) -> Read<DefaultValue>
    requires { base + length part.now ≤ text_limit }
    ensures { DefaultTo result base part.now }
{
    match gap_at(part, base, base) {
        Ok(c) => optional_value(default_attribute_value(rest_at(part, base, c), c), base),
        Err(l) => optional_value(Err(l), base),
    }
}

// The number of a default's kind.
pub fn default_number(d: DefaultValue) -> u8
    ensures { result ≡ default_number (default_of d) }
{
    match d {
        DefaultValue::Absent => 0,
        DefaultValue::Number(_) => 1,
        DefaultValue::Signed(_) => 2,
        DefaultValue::Truth(_) => 3,
        DefaultValue::Text(_) => 4,
    }
}

// A signed number in two's complement; minus zero is zero.
fn twos_complement(s: SignedParts) -> u64
    ensures { result ≡ twos_complement (signed_of s) }
{
    let v = s.magnitude;
    if v == 0 {
        return 0;
    }
    if s.negative {
        return 0xffff_ffff_ffff_ffff - (v - 1);
    }
    v
}

// The word of a default: a number, a truth, or a string's span.
pub fn default_word(d: DefaultValue) -> u64
    requires { DefaultIn d text_limit }
    ensures { result ≡ further_word layout (default_word (default_of d)) }
{
    match d {
        DefaultValue::Absent => 0,
        DefaultValue::Number(n) => n,
        DefaultValue::Signed(s) => twos_complement(s),
        DefaultValue::Truth(t) => u64::from(t),
        DefaultValue::Text(s) => span_word(s.start, s.length),
    }
}
