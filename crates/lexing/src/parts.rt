// Parts of a text.
ghost use Rattle.std.specs.Prelude.{◌≡◌, ◌+◌, ◌≤◌, length, drop, get_or};
ghost use Rattle.lexing.specs.answers.{Rest, LacksIf};

use crate::eights::{bytes_other_than, eight_at};

// The rest of a part, from an offset on.
pub fn rest_at(part: &[u8], base: usize, c: usize) -> &[u8]
    requires { (base ≤ c) × (c ≤ base + length part.now) }
    ensures { Rest base part.now c result.now }
{
    let n = c - base;
    &part[n..]
}

// The byte at a place, 0 past the end. No caller looks for a 0, so one test serves for "ends here" and "another byte".
pub fn peek(part: &[u8], i: usize) -> u8
    ensures { result ≡ get_or part.now i 0 }
{
    part.get(i).copied().unwrap_or(0)
}

// Whether eight bytes are at a place, none of them x.
pub fn eight_without(part: &[u8], i: usize, x: u8) -> bool
    requires { i ≤ length part.now }
    ensures { LacksIf result x part.now i }
{
    if part.len() - i < 8 {
        return false;
    }
    bytes_other_than(eight_at(part, i), x) == 0x8080_8080_8080_8080
}

// What is left after n bytes; nothing where there are fewer.
pub fn after(part: &[u8], n: usize) -> &[u8]
    ensures { result.now ≡ drop n part.now }
{
    part.get(n..).unwrap_or(&[])
}
