// Fields of structs, events and attributes.
ghost use Rattle.std.specs.Prelude.{◌≡◌, [], ◌∷◌, map, ◌+◌, ◌≤◌, length};
ghost use Rattle.lexing.specs.answers.{number_reply};
ghost use Rattle.items.specs.layout.{text_limit, layout, catalogue_bytes};
ghost use Rattle.lexing.specs.buffers.{put};
ghost use Rattle.items.specs.records.{field_record, field_kind};
ghost use Rattle.items.specs.structs.{StructField, max_length, parse_struct_field, closed_field, fields_run, struct_fields};
ghost use Rattle.items.specs.answers.{CountTo, Room, Written};
ghost use Rattle.items.specs.inner.fields.{FieldTo, struct_field_at, StructFieldBetween, StructFieldTo, optional_length, MarkerTo, field_parts};
ghost use Rattle.items.specs.inner.writing.{room_for};

use crate::layout::{FIELD, FIELD_WORDS};
use crate::levels::Privilege;
use crate::maturity::{Maturity, maturity_between};
use crate::runs::{Element, count_braced, write_braced};
use crate::writing::{First, Wrote, first_word, flag, span_word};
use lexing::answers::{Lost, Read, optional};
use lexing::buffers::put_words;
use lexing::names::{equals_code, gap_word};
use lexing::parts::rest_at;
use lexing::steps::{blank_at, integer_after, tag_after};
use lexing::word_sets::{KeywordSet, keywords_set};
use lexing::words::{id_at, tag};

// A field: where its type's name starts and ends, its largest length where it has one, where its name starts and ends, whether it is a list, its code.
#[derive(Clone, Copy)]
pub struct FieldParts {
    pub type_at: usize,
    pub name: usize,
    pub type_end: usize,
    pub end: usize,
    pub maximum: Option<u64>,
    pub code: u64,
    pub list: bool,
}

// A field of a struct; flags: optional, nullable, fabric sensitive.
#[derive(Clone, Copy)]
pub struct StructFieldParts {
    pub maturity: Maturity,
    pub flags: u8,
    pub field: FieldParts,
}

// Whether a field is a list, and the offset after the marker.
#[derive(Clone, Copy)]
struct Marker {
    list: bool,
    next: usize,
}

fn max_length(part: &[u8], base: usize) -> Read<u64>
    requires { base + length part.now ≤ text_limit }
    ensures { number_reply result base part.now ≡ max_length base part.now }
{
    let c1 = tag_after(part, base, base, b'<')?;
    let (v, c2) = integer_after(part, base, c1)?;
    let c3 = tag_after(part, base, c2, b'>')?;
    Ok((v, c3))
}

// A length that may be absent, at an offset: where it fails nothing is read, and a stop goes on.
fn optional_length(r: Read<u64>, base: usize) -> Read<Option<u64>>
    ensures { result ≡ optional_length r base }
{
    match r {
        Ok((v, c)) => Ok((Some(v), c)),
        Err(Lost::Fail(_)) => Ok((None, base)),
        Err(l) => Err(l),
    }
}

// The marker of a list, which may be absent.
fn list_marker(part: &[u8], base: usize) -> Marker
    requires { base + length part.now ≤ text_limit }
    ensures { MarkerTo result base part.now }
{
    let absent = Marker {
        list: false,
        next: base,
    };
    let Ok(c1) = tag(part, base, b'[') else {
        return absent;
    };
    let Ok(c2) = tag_after(part, base, c1, b']') else {
        return absent;
    };
    let next = blank_at(part, base, c2);
    Marker { list: true, next }
}

pub fn parse_field(part: &[u8], base: usize) -> Read<FieldParts>
    requires { base + length part.now ≤ text_limit }
    ensures { FieldTo result base part.now }
{
    // Read in place.
    let type_at = blank_at(part, base, base);
    let type_end = id_at(part, base, type_at)?;
    let (maximum, c2) = optional_length(
        max_length(rest_at(part, base, type_end), type_end),
        type_end,
    )?;
    let (named, c3) = gap_word(part, base, c2)?;
    let c4 = blank_at(part, base, c3);
    let marker = list_marker(rest_at(part, base, c4), c4);
    let c5 = marker.next;
    let (code, c6) = equals_code(part, base, c5)?;
    Ok((
        FieldParts {
            type_at,
            type_end,
            maximum,
            name: named.start,
            end: named.end,
            list: marker.list,
            code,
        },
        c6,
    ))
}

pub fn parse_struct_field(part: &[u8], base: usize) -> Read<StructFieldParts>
    requires { base + length part.now ≤ text_limit }
    ensures { StructFieldTo parse_struct_field result base part.now }
{
    let (maturity, c1) = maturity_between(part, base);
    let set = keywords_set(rest_at(part, base, c1), c1, KeywordSet::Field);
    let c2 = set.next;
    let (field, c3) = parse_field(rest_at(part, base, c2), c2)?;
    Ok((
        StructFieldParts {
            maturity,
            flags: set.flags,
            field,
        },
        c3,
    ))
}

// A field of a struct, which reads the blanks before it itself, and the semicolon after it.
pub fn closed_field(part: &[u8], base: usize) -> Read<StructFieldParts>
    requires { base + length part.now ≤ text_limit }
    ensures { StructFieldTo closed_field result base part.now }
{
    let part = &part[..];
    let (field, c1) = parse_struct_field(part, base)?;
    let c2 = tag_after(part, base, c1, b';')?;
    Ok((field, c2))
}

// A field takes four words.
impl Element for StructFieldParts {
    ghost Value = { StructField };

    ghost stands = { struct_field_at };

    ghost reads = { closed_field };

    ghost records = { λ f. field_record f ∷ [] };

    ghost all = { map field_record };

    ghost Bounds = { λ u. StructFieldBetween };

    ghost size = { λ f. 4 };

    fn read(part: &[u8], base: usize) -> Read<StructFieldParts> {
        closed_field(part, base)
    }

    fn words(&self) -> usize {
        FIELD_WORDS
    }

    fn write(self, _part: &[u8], _base: usize, out: &mut [u8], at: usize) {
        put_field(out, at, self);
    }
}

// The first pass over the fields between braces.
pub fn count_struct_fields(part: &[u8], base: usize) -> Read<usize>
    requires { base + length part.now ≤ text_limit }
    ensures { CountTo (map field_record) struct_fields result base part.now }
{
    count_braced::<StructFieldParts>(part, base)
}

// The record of a field.
pub fn put_field(out: &mut [u8], at: usize, s: StructFieldParts)
    requires field_kind_in_bounds { at + room_for field_kind ≤ length out.old }
    requires struct_field_between { StructFieldBetween 0 s text_limit }
    ensures { out.new ≡ put at (catalogue_bytes layout (field_parts s ∷ [])) out.old }
{
    let f = s.field;
    let first = First {
        kind: FIELD,
        place: 0,
        maturity: s.maturity,
        doc_present: 0,
        flags: flag(f.list) * 64 + flag(f.maximum.is_some()) * 32 + s.flags * 4,
        name: f.name,
        name_length: f.end - f.name,
        first_privilege: Privilege::View,
        second_privilege: Privilege::View,
    };
    let typed = span_word(f.type_at, f.type_end - f.type_at);
    put_words(
        out,
        at,
        [first_word(first), typed, f.code, f.maximum.unwrap_or(0)],
    );
}

// The second pass over the fields between braces.
pub fn write_struct_fields(part: &[u8], base: usize, out: &mut [u8], at: usize) -> Wrote
    requires part_bound { base + length part.now ≤ text_limit }
    requires room { Room (map field_record) struct_fields base part.now at (length out.old) }
    ensures { Written (map field_record) struct_fields base part.now at result out.old out.new }
{
    write_braced::<StructFieldParts>(part, base, out, at)
}
