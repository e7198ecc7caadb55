// Structs.
ghost use Rattle.std.specs.Prelude.{◌≡◌, true, [], ◌∷◌, ◌+◌, ◌≤◌, length, take};
ghost use Rattle.lexing.specs.words.{is_key, is_lower, keyword, any_keyword};
ghost use Rattle.lexing.specs.answers.{doc_of};
ghost use Rattle.items.specs.layout.{text_limit, layout, catalogue_bytes};
ghost use Rattle.lexing.specs.buffers.{put};
ghost use Rattle.items.specs.records.{struct_records, struct_kind};
ghost use Rattle.items.specs.structs.{response_code, type_by_word, parse_struct_after_doc_maturity};
ghost use Rattle.items.specs.answers.{FrontFits, Room, Written, maturity_number};
ghost use Rattle.items.specs.inner.structs.{StructFrom, HeadBetween, StructHeadTo, StructCountTo, kind_by, struct_words, StructWordTo, code_reply, response_reply, type_by, struct_kind_number, response_number, struct_first};
ghost use Rattle.items.specs.inner.writing.{room_for};

use crate::fields::{count_struct_fields, write_struct_fields};
use crate::layout::{STRUCT, STRUCT_BYTES, STRUCT_WORDS};
use crate::levels::Privilege;
use crate::writing::{First, FrontParts, Wrote, doc_bit, doc_word, first_word};
use lexing::answers::Read;
use lexing::buffers::put_words;
use lexing::bytes::lower_of;
use lexing::names::{equals_code, keyword_name};
use lexing::parts::{peek, rest_at};
use lexing::steps::blank_at;
use lexing::word_sets::{KeywordSet, is_lower, keywords_set};
use lexing::words::keyword;

// What the word before a struct makes of it; only a response has a code.
#[derive(Clone, Copy)]
pub enum StructKind {
    Regular,
    Request,
    Response,
    Shared,
}

// A struct up to its fields: its kind, whether it is fabric scoped, where its name starts and ends, the code of a response.
#[derive(Clone, Copy)]
pub struct StructHeadParts {
    pub kind: StructKind,
    pub scoped: u8,
    pub name: usize,
    pub code: u64,
    pub end: usize,
}

// The kind that the word before a struct says, and the offset after it and its blanks.
#[derive(Clone, Copy)]
struct StructWord {
    kind: StructKind,
    next: usize,
}

// The kind that a word of n bytes says: only in lower case it counts.
fn kind_by(part: &[u8], n: usize, kind: StructKind) -> StructKind
    requires { n ≤ length part.now }
    ensures { result ≡ kind_by (is_lower (take n part.now)) kind }
{
    if is_lower(part, n) {
        return kind;
    }
    StructKind::Regular
}

// One keyword before a struct, which may be absent, and its blanks.
fn struct_word_by(part: &[u8], base: usize, key: &[u8], kind: StructKind) -> StructWord
    requires part_bound { base + length part.now ≤ text_limit }
    requires key_value { type_by_word key.now ≡ type_by kind }
    requires key_value_2 { is_key key.now ≡ true }
    ensures { StructWordTo (keyword key.now) result base part.now }
{
    let part = &part[..];
    let Ok(c) = keyword(part, base, key) else {
        return StructWord {
            kind: StructKind::Regular,
            next: blank_at(part, base, base),
        };
    };
    let said = kind_by(part, c - base, kind);
    let next = blank_at(part, base, c);
    StructWord { kind: said, next }
}

// The word before a struct, which may be absent, and its blanks; those of `shared` the caller has read. The third letter selects one of the others.
fn struct_word(part: &[u8], base: usize, from: usize) -> StructWord
    requires part_bound { base + length part.now ≤ text_limit }
    requires struct_from { StructFrom from base part.now }
    ensures { StructWordTo (any_keyword struct_words) result base part.now }
{
    if base < from {
        let kind = kind_by(part, 6, StructKind::Shared);
        return StructWord { kind, next: from };
    }
    let x = lower_of(peek(part, 2));
    match x {
        b'q' => struct_word_by(part, base, b"request", StructKind::Request),
        _ => struct_word_by(part, base, b"response", StructKind::Response),
    }
}

fn response_code(part: &[u8], base: usize) -> Read<u64>
    requires { base + length part.now ≤ text_limit }
    ensures { response_reply result base part.now ≡ response_code base part.now }
{
    let (code, c1) = equals_code(part, base, base)?;
    let c2 = blank_at(part, base, c1);
    Ok((code, c2))
}

// The code of a response; other structs have none, and nothing is read.
fn struct_code(part: &[u8], base: usize, kind: StructKind) -> Read<u64>
    requires { base + length part.now ≤ text_limit }
    ensures { code_reply kind result base part.now ≡ type_by kind base part.now }
{
    match kind {
        StructKind::Regular => Ok((0, base)),
        StructKind::Request => Ok((0, base)),
        StructKind::Response => response_code(part, base),
        StructKind::Shared => Ok((0, base)),
    }
}

// A struct up to its fields.
pub fn struct_head(part: &[u8], base: usize, from: usize) -> Read<StructHeadParts>
    requires part_bound { base + length part.now ≤ text_limit }
    requires struct_from { StructFrom from base part.now }
    ensures { StructHeadTo result base part.now }
{
    let part = &part[..];
    let word = struct_word(part, base, from);
    let kind = word.kind;
    let start = word.next;
    let set = keywords_set(rest_at(part, base, start), start, KeywordSet::Struct);
    let c1 = blank_at(part, base, set.next);
    let (named, c2) = keyword_name(rest_at(part, base, c1), c1, b"struct")?;
    let c3 = blank_at(part, base, c2);
    let (code, c4) = struct_code(rest_at(part, base, c3), c3, kind)?;
    Ok((
        StructHeadParts {
            kind,
            scoped: set.flags,
            name: named.start,
            end: named.end,
            code,
        },
        c4,
    ))
}

// The first pass over a struct: three words, and those of its fields.
pub fn count_struct(part: &[u8], base: usize, from: usize) -> Read<usize>
    requires part_bound { base + length part.now ≤ text_limit }
    requires struct_from { StructFrom from base part.now }
    ensures { StructCountTo result base part.now }
{
    let (_, c1) = struct_head(part, base, from)?;
    let (n, c2) = count_struct_fields(rest_at(part, base, c1), c1)?;
    Ok((n + STRUCT_WORDS, c2))
}

// The number of a struct's kind.
fn kind_number(kind: StructKind) -> u8
    ensures { result ≡ struct_kind_number kind }
{
    match kind {
        StructKind::Regular => 0,
        StructKind::Request => 1,
        StructKind::Response => 2,
        StructKind::Shared => 3,
    }
}

// The code of a response, or zero.
fn response_number(kind: StructKind, code: u64) -> u64
    ensures { result ≡ response_number kind code }
{
    match kind {
        StructKind::Regular => 0,
        StructKind::Request => 0,
        StructKind::Response => code,
        StructKind::Shared => 0,
    }
}

// The first record of a struct.
fn put_struct(out: &mut [u8], at: usize, front: FrontParts, head: StructHeadParts)
    requires struct_kind_in_bounds { at + room_for struct_kind ≤ length out.old }
    requires front_fits { FrontFits front }
    requires head_between { HeadBetween 0 head text_limit }
    ensures { out.new ≡ put at (catalogue_bytes layout (struct_first front head ∷ [])) out.old }
{
    let doc = front.doc;
    let kind = head.kind;
    let first = First {
        kind: STRUCT,
        place: front.place,
        maturity: front.maturity,
        doc_present: doc_bit(doc),
        flags: kind_number(kind) * 32 + head.scoped * 16,
        name: head.name,
        name_length: head.end - head.name,
        first_privilege: Privilege::View,
        second_privilege: Privilege::View,
    };
    let code = response_number(kind, head.code);
    put_words(out, at, [first_word(first), doc_word(doc), code]);
}

// The second pass over a struct.
pub fn write_struct(
    part: &[u8],
    base: usize,
    from: usize,
    front: FrontParts,
    out: &mut [u8],
    at: usize,
) -> Wrote
    requires part_bound { base + length part.now ≤ text_limit }
    requires struct_from { StructFrom from base part.now }
    requires front_fits { FrontFits front }
    requires room { Room (struct_records front.place) (parse_struct_after_doc_maturity (doc_of front.doc) (maturity_number front.maturity)) base part.now at (length out.old) }
    ensures { Written (struct_records front.place) (parse_struct_after_doc_maturity (doc_of front.doc) (maturity_number front.maturity)) base part.now at result out.old out.new }
{
    let part = &part[..];
    let Ok((h, c)) = struct_head(part, base, from) else {
        return Wrote { next: base, to: at };
    };
    let w = write_struct_fields(rest_at(part, base, c), c, out, at + STRUCT_BYTES);
    put_struct(out, at, front, h);
    w
}
