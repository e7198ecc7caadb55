// What several heads have in them: a keyword and a name or a number, a colon and a type's name, an equals sign and a code.
ghost use Rattle.std.specs.Prelude.{◌≡◌, true, ◌+◌, ◌≤◌, length};
ghost use Rattle.lexing.specs.integers.{u64_max};
ghost use Rattle.lexing.specs.words.{is_key};
ghost use Rattle.lexing.specs.answers.{number_reply, NumberAt, after_blanks};
ghost use Rattle.lexing.specs.names.{two_keywords_name, named_after};
ghost use Rattle.lexing.specs.answers.names.{NamedTo, NamedAt, blank_word, gap_word, keyword_name, keyword_number, type_after, equals_code};

use crate::answers::Read;
use crate::integers::positive_integer;
use crate::parts::rest_at;
use crate::steps::{blank_at, gap_at, integer_after, tag_after};
use crate::words::{id_at, keyword, tag};

// Where a name starts and ends.
#[derive(Clone, Copy)]
pub struct Named {
    pub start: usize,
    pub end: usize,
}

// Blanks and a name, from an offset of a part.
pub fn blank_word(part: &[u8], base: usize, c: usize) -> Read<Named>
    requires { ((base ≤ c) × (c ≤ base + length part.now)) × (base + length part.now ≤ u64_max) }
    ensures { NamedAt blank_word result base part.now c }
{
    let part = &part[..];
    let c1 = blank_at(part, base, c);
    let c2 = id_at(part, base, c1)?;
    Ok((Named { start: c1, end: c2 }, c2))
}

// At least one blank and a name.
pub fn gap_word(part: &[u8], base: usize, c: usize) -> Read<Named>
    requires { ((base ≤ c) × (c ≤ base + length part.now)) × (base + length part.now ≤ u64_max) }
    ensures { NamedAt gap_word result base part.now c }
{
    let c1 = gap_at(part, base, c)?;
    let c2 = id_at(part, base, c1)?;
    Ok((Named { start: c1, end: c2 }, c2))
}

// A keyword and the name after it.
pub fn keyword_name(part: &[u8], base: usize, key: &[u8]) -> Read<Named>
    requires part_bound { base + length part.now ≤ u64_max }
    requires key_value { is_key key.now ≡ true }
    ensures { NamedTo (keyword_name key.now) result base part.now }
{
    let part = &part[..];
    let key = &key[..];
    let c1 = keyword(part, base, key)?;
    let c2 = gap_at(part, base, c1)?;
    let c3 = id_at(part, base, c2)?;
    Ok((Named { start: c2, end: c3 }, c3))
}

// Two keywords and the name after them.
pub fn two_keywords_name(part: &[u8], base: usize, first: &[u8], second: &[u8]) -> Read<Named>
    requires part_bound { base + length part.now ≤ u64_max }
    requires first_value { (is_key first.now ≡ true) × (is_key second.now ≡ true) }
    ensures { NamedTo (two_keywords_name first.now second.now) result base part.now }
{
    let part = &part[..];
    let first = &first[..];
    let second = &second[..];
    let c1 = keyword(part, base, first)?;
    let c2 = gap_at(part, base, c1)?;
    let (named, c3) = keyword_name(rest_at(part, base, c2), c2, second)?;
    Ok((named, c3))
}

// Two keywords, a name and a semicolon.
pub fn named_after(part: &[u8], base: usize, first: &[u8], second: &[u8]) -> Read<Named>
    requires part_bound { base + length part.now ≤ u64_max }
    requires first_value { (is_key first.now ≡ true) × (is_key second.now ≡ true) }
    ensures { NamedTo (named_after first.now second.now) result base part.now }
{
    let part = &part[..];
    let first = &first[..];
    let second = &second[..];
    let (named, c1) = two_keywords_name(part, base, first, second)?;
    let c2 = tag_after(part, base, c1, b';')?;
    Ok((named, c2))
}

// A keyword and the number after it.
pub fn keyword_number(part: &[u8], base: usize, key: &[u8]) -> Read<u64>
    requires part_bound { base + length part.now ≤ u64_max }
    requires key_value { is_key key.now ≡ true }
    ensures { number_reply result base part.now ≡ keyword_number key.now base part.now }
{
    let part = &part[..];
    let key = &key[..];
    let c1 = keyword(part, base, key)?;
    let c2 = gap_at(part, base, c1)?;
    let (v, c3) = positive_integer(rest_at(part, base, c2), c2)?;
    Ok((v, c3))
}

// A colon and the name of a type.
pub fn colon_type(part: &[u8], base: usize) -> Read<Named>
    requires { base + length part.now ≤ u64_max }
    ensures { NamedTo type_after result base part.now }
{
    let part = &part[..];
    let c1 = tag_after(part, base, base, b':')?;
    let c2 = blank_at(part, base, c1);
    let c3 = id_at(part, base, c2)?;
    Ok((Named { start: c2, end: c3 }, c3))
}

// An equals sign and a code.
pub fn equals_code(part: &[u8], base: usize, c: usize) -> Read<u64>
    requires { ((base ≤ c) × (c ≤ base + length part.now)) × (base + length part.now ≤ u64_max) }
    ensures { NumberAt equals_code result base part.now c }
{
    let c1 = tag(rest_at(part, base, c), c, b'=')?;
    let (v, c2) = integer_after(part, base, c1)?;
    Ok((v, c2))
}

// The same after blanks.
pub fn blank_equals_code(part: &[u8], base: usize, c: usize) -> Read<u64>
    requires { ((base ≤ c) × (c ≤ base + length part.now)) × (base + length part.now ≤ u64_max) }
    ensures { NumberAt (after_blanks equals_code) result base part.now c }
{
    let part = &part[..];
    let n = blank_at(part, base, c);
    equals_code(part, base, n)
}
