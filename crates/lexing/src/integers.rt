// Integers.
ghost use Rattle.std.specs.Prelude.{◌≡◌, true, ◌||◌, ◌+◌, ◌*◌, ◌/◌, ◌≤◌, ◌<◌, eqb, leb, length, drop};
ghost use Rattle.lexing.specs.bytes.{digit};
ghost use Rattle.lexing.specs.integers.{u64_max, hex_integer, decimal_integer, positive_integer, signed_integer, largest, after_sign};
ghost use Rattle.lexing.specs.answers.{number_reply, signed_reply};
ghost use Rattle.lexing.specs.inner.integers.{digit_test, radix, digits_are, is_hex_ahead};

use crate::answers::{Lost, Read, Refusal};
use crate::bytes::{is_between, is_digit, is_hex};
use crate::parts::{after, peek};

// A signed number by its magnitude.
#[derive(Clone, Copy)]
pub struct SignedParts {
    pub negative: bool,
    pub magnitude: u64,
}

fn is_digit_in(hex: bool, x: u8) -> bool
    ensures { result ≡ digit_test hex x }
{
    if hex {
        return is_hex(x);
    }
    is_digit(x)
}

fn digit_of(hex: bool, x: u8) -> u64
    requires { digit_test hex x ≡ true }
    ensures { result ≡ digit x }
{
    if is_digit(x) {
        return (x - b'0') as u64;
    }
    if is_between(b'a', b'f', x) {
        return (x - b'a' + 10) as u64;
    }
    (x - b'A' + 10) as u64
}

fn radix_of(hex: bool) -> u64
    ensures { result ≡ radix hex }
{
    if hex {
        return 16;
    }
    10
}

// The largest value to which one more digit can be put.
fn most_of(hex: bool) -> u64
    ensures { result ≡ u64_max / radix hex }
{
    if hex {
        return 0x0fff_ffff_ffff_ffff;
    }
    0x1999_9999_9999_9999
}

// Whether a value stays below 2^64 with one more digit.
fn fits_with(hex: bool, v: u64, d: u64) -> bool
    ensures { result ≡ leb (v * radix hex + d) u64_max }
{
    if most_of(hex) < v {
        return false;
    }
    v * radix_of(hex) <= 0xffff_ffff_ffff_ffff - d
}

// The value of the digits at the front and how many there are; none where the value is 2^64 or more. It ends at the first digit with which it is.
// By hand: with `to_digit` and `checked_mul` over the radix as a number, annotations are read 4 percent slower and entries 2 (bench/turns).
fn read_digits(part: &[u8], hex: bool) -> Option<(u64, usize)>
    ensures { digits_are hex part.now result }
{
    let base = radix_of(hex);
    let mut v: u64 = 0;
    let mut i = 0;
    while i < part.len() {
        let x = part[i];
        if !is_digit_in(hex, x) {
            return Some((v, i));
        }
        let d = digit_of(hex, x);
        if !fits_with(hex, v, d) {
            return None;
        }
        v = v * base + d;
        i += 1;
    }
    Some((v, i))
}

fn is_x(x: u8) -> bool
    ensures { result ≡ (eqb x 0x78 || eqb x 0x58) }
{
    if x == b'x' {
        return true;
    }
    x == b'X'
}

// Whether `0x` or `0X` and a hexadecimal digit are at the front.
fn is_hex_ahead(part: &[u8]) -> bool
    ensures { result ≡ is_hex_ahead part.now }
{
    if peek(part, 0) != b'0' {
        return false;
    }
    if !is_x(peek(part, 1)) {
        return false;
    }
    is_hex(peek(part, 2))
}

fn hex_integer(part: &[u8], base: usize) -> Read<u64>
    requires part_bound { base + length part.now ≤ u64_max }
    requires part_value { is_hex_ahead part.now ≡ true }
    ensures { number_reply result base part.now ≡ hex_integer base part.now }
{
    let Some((v, n)) = read_digits(after(part, 2), true) else {
        return Err(Lost::Stop(Refusal::NumberTooLarge, base));
    };
    Ok((v, base + (2 + n)))
}

fn decimal_integer(part: &[u8], base: usize) -> Read<u64>
    requires { base + length part.now ≤ u64_max }
    ensures { number_reply result base part.now ≡ decimal_integer base part.now }
{
    if !is_digit(peek(part, 0)) {
        return Err(Lost::Fail(base));
    }
    let Some((v, n)) = read_digits(part, false) else {
        return Err(Lost::Stop(Refusal::NumberTooLarge, base));
    };
    Ok((v, base + n))
}

// An integer that may be a hexadecimal one.
fn any_integer(part: &[u8], base: usize) -> Read<u64>
    requires { base + length part.now ≤ u64_max }
    ensures { number_reply result base part.now ≡ positive_integer base part.now }
{
    let part = &part[..];
    if is_hex_ahead(part) {
        return hex_integer(part, base);
    }
    decimal_integer(part, base)
}

// An integer without a sign. Most have one digit, and of the others most are decimal: the second byte tells them, a short front.
pub fn positive_integer(part: &[u8], base: usize) -> Read<u64>
    requires { base + length part.now ≤ u64_max }
    ensures { number_reply result base part.now ≡ positive_integer base part.now }
{
    let part = &part[..];
    let x = peek(part, 0);
    if !is_digit(x) {
        return Err(Lost::Fail(base));
    }
    let y = peek(part, 1);
    if is_digit(y) {
        let (v, c) = decimal_integer(part, base)?;
        return Ok((v, c));
    }
    if is_x(y) {
        return any_integer(part, base);
    }
    Ok((digit_of(false, x), base + 1))
}

// The largest magnitude of a signed 64-bit number.
fn largest_of(negative: bool) -> u64
    ensures { result ≡ largest negative }
{
    if negative {
        return 0x8000_0000_0000_0000;
    }
    0x7fff_ffff_ffff_ffff
}

// The digits after a sign, which is at the front.
fn after_sign(part: &[u8], base: usize, negative: bool) -> Read<SignedParts>
    requires part_bound { base + length part.now ≤ u64_max }
    requires part_nonzero { 0 < length part.now }
    ensures { signed_reply result base part.now ≡ after_sign negative base (drop 1 part.now) }
{
    let rest = after(part, 1);
    if !is_digit(peek(rest, 0)) {
        return Err(Lost::Fail(base));
    }
    let Some((v, n)) = read_digits(rest, false) else {
        return Err(Lost::Fail(base));
    };
    if largest_of(negative) < v {
        return Err(Lost::Fail(base));
    }
    Ok((
        SignedParts {
            negative,
            magnitude: v,
        },
        base + (1 + n),
    ))
}

pub fn signed_integer(part: &[u8], base: usize) -> Read<SignedParts>
    requires { base + length part.now ≤ u64_max }
    ensures { signed_reply result base part.now ≡ signed_integer base part.now }
{
    let x = peek(part, 0);
    if x == b'-' {
        return after_sign(part, base, true);
    }
    if x == b'+' {
        return after_sign(part, base, false);
    }
    Err(Lost::Fail(base))
}
