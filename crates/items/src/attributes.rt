// Attributes, and their lists of privileges.
ghost use Rattle.std.specs.Prelude.{◌≡◌, true, [], ◌∷◌, ◌+◌, ◌≤◌, ◌<◌, length};
ghost use Rattle.lexing.specs.words.{is_key, keyword, any_keyword};
ghost use Rattle.lexing.specs.answers.{doc_of};
ghost use Rattle.items.specs.layout.{text_limit, layout, catalogue_bytes};
ghost use Rattle.lexing.specs.buffers.{put};
ghost use Rattle.items.specs.records.{attribute_records, attribute_kind};
ghost use Rattle.items.specs.answers.{FrontFits, Room, Written, privilege_number, maturity_number};
ghost use Rattle.items.specs.members.{parse_attribute_after_doc_maturity};
ghost use Rattle.items.specs.inner.attributes.{PrivilegesTo, AttributeCountTo, access_words, operation_of, OperationTo, granted_of, grants_with, AccessEntryTo, AccessEntriesTo, AttributeHeadTo, attribute_first};
ghost use Rattle.items.specs.inner.writing.{room_for};

use crate::fields::{closed_field, put_field};
use crate::layout::{ATTRIBUTE, ATTRIBUTE_BYTES, WHOLE_ATTRIBUTE_BYTES, WHOLE_ATTRIBUTE_WORDS};
use crate::levels::{Privilege, colon_privilege};
use crate::writing::{First, FrontParts, Wrote, doc_bit, put_documented};
use lexing::answers::{Lost, Read, Refusal};
use lexing::bytes::lower_of;
use lexing::parts::{peek, rest_at};
use lexing::steps::{blank_at, gap_at, tag_after};
use lexing::word_sets::{KeywordSet, is_lower, keywords_set};
use lexing::words::keyword;

// The privileges to read and to write.
#[derive(Clone, Copy)]
pub struct Privileges {
    pub read: Privilege,
    pub write: Privilege,
}

// The privileges of an attribute that names none.
const DEFAULT_PRIVILEGES: Privileges = Privileges {
    read: Privilege::View,
    write: Privilege::Operate,
};

// An attribute up to its field; flags: readonly, writeonly, nosubscribe, timedwrite.
#[derive(Clone, Copy)]
struct AttributeHeadParts {
    flags: u8,
    read: Privilege,
    write: Privilege,
}

// What a word of the list names; in another case than the lower one it names neither.
#[derive(Clone, Copy)]
enum Operation {
    Read,
    Write,
    Neither,
}

// What the entries so far have granted; or the list is refused at its first word that is not in lower case.
type Grants = Result<Privileges, usize>;

// What entries have granted, and the offset after them.
#[derive(Clone, Copy)]
struct AccessEntries {
    grants: Grants,
    next: usize,
}

// A keyword that names an operation.
fn operation_by(
    part: &[u8],
    base: usize,
    key: &[u8],
    operation: Operation,
) -> Option<(Operation, usize)>
    requires part_bound { base + length part.now ≤ text_limit }
    requires key_value { operation_of key.now ≡ operation }
    requires key_value_2 { is_key key.now ≡ true }
    ensures { OperationTo (keyword key.now) result base part.now }
{
    let part = &part[..];
    let Ok(c) = keyword(part, base, key) else {
        return None;
    };
    if is_lower(part, c - base) {
        return Some((operation, c));
    }
    Some((Operation::Neither, c))
}

// `read` or `write`, in any case.
fn access_word(part: &[u8], base: usize) -> Option<(Operation, usize)>
    requires { base + length part.now ≤ text_limit }
    ensures { OperationTo (any_keyword access_words) result base part.now }
{
    match operation_by(part, base, b"read", Operation::Read) {
        Some(read) => Some(read),
        None => operation_by(part, base, b"write", Operation::Write),
    }
}

// What is granted with an entry more, whose word is at an offset.
fn grants_with(grants: Grants, operation: Operation, privilege: Privilege, at: usize) -> Grants
    ensures { granted_of result ≡ grants_with (granted_of grants) operation (privilege_number privilege) at }
{
    let Privileges { read, write } = grants?;
    match operation {
        Operation::Read => Ok(Privileges {
            read: privilege,
            write,
        }),
        Operation::Write => Ok(Privileges {
            read,
            write: privilege,
        }),
        Operation::Neither => Err(at),
    }
}

// An entry more. Where it is not there whole, nothing is read and nothing granted.
fn access_entry(part: &[u8], base: usize, grants: Grants) -> AccessEntries
    requires { base + length part.now ≤ text_limit }
    ensures { AccessEntryTo grants result base part.now }
{
    let absent = AccessEntries { grants, next: base };
    let c1 = blank_at(part, base, base);
    let Some((operation, c2)) = access_word(rest_at(part, base, c1), c1) else {
        return absent;
    };
    let c3 = blank_at(part, base, c2);
    let Ok((privilege, c4)) = colon_privilege(part, base, c3) else {
        return absent;
    };
    let next = blank_at(part, base, c4);
    let more = grants_with(grants, operation, privilege, c1);
    AccessEntries { grants: more, next }
}

// Entries with commas between them; there may be none. The blanks after a comma are those before an entry.
fn access_entries(part: &[u8], base: usize) -> AccessEntries
    requires { base + length part.now ≤ text_limit }
    ensures { AccessEntriesTo result base part.now }
{
    let mut grants = Ok(DEFAULT_PRIVILEGES);
    let mut end = base;
    let mut c = base;
    loop {
        let entry = access_entry(rest_at(part, base, c), c, grants);
        if entry.next == c {
            return AccessEntries { grants, next: end };
        }
        grants = entry.grants;
        end = entry.next;
        let Ok(next) = tag_after(part, base, end, b',') else {
            return AccessEntries { grants, next: end };
        };
        c = next;
    }
}

// `access(..)`. A list that is not there whole is none; one that is there and has a word that is not in lower case stops at that word.
// Most attributes have none, which the first byte tells.
pub fn attribute_access(part: &[u8], base: usize) -> Read<Privileges>
    requires { base + length part.now ≤ text_limit }
    ensures { PrivilegesTo result base part.now }
{
    let absent = Ok((DEFAULT_PRIVILEGES, base));
    let x = peek(part, 0);
    if b'/' < x {
        if lower_of(x) != b'a' {
            return absent;
        }
    }
    // Read in place.
    let c1 = blank_at(part, base, base);
    let Ok(c2) = keyword(rest_at(part, base, c1), c1, b"access") else {
        return absent;
    };
    let Ok(c3) = tag_after(part, base, c2, b'(') else {
        return absent;
    };
    let c4 = blank_at(part, base, c3);
    let entries = access_entries(rest_at(part, base, c4), c4);
    let Ok(c5) = tag_after(part, base, entries.next, b')') else {
        return absent;
    };
    match entries.grants {
        Ok(privileges) => Ok((privileges, c5)),
        Err(at) => Err(Lost::Stop(Refusal::AccessNotLower, at)),
    }
}

// An attribute up to its field.
fn attribute_head(part: &[u8], base: usize) -> Read<AttributeHeadParts>
    requires { base + length part.now ≤ text_limit }
    ensures { AttributeHeadTo result base part.now }
{
    let part = &part[..];
    let q = keywords_set(part, base, KeywordSet::Attribute);
    let c1 = blank_at(part, base, q.next);
    let c2 = keyword(rest_at(part, base, c1), c1, b"attribute")?;
    let c3 = gap_at(part, base, c2)?;
    let (privileges, c4) = attribute_access(rest_at(part, base, c3), c3)?;
    let head = AttributeHeadParts {
        flags: q.flags,
        read: privileges.read,
        write: privileges.write,
    };
    Ok((head, c4))
}

// The first pass over an attribute: two words, and the four of its field.
pub fn count_attribute(part: &[u8], base: usize) -> Read<usize>
    requires { base + length part.now ≤ text_limit }
    ensures { AttributeCountTo result base part.now }
{
    let (_, c1) = attribute_head(part, base)?;
    let (_, c2) = closed_field(rest_at(part, base, c1), c1)?;
    Ok((WHOLE_ATTRIBUTE_WORDS, c2))
}

// The first record of an attribute.
fn put_attribute(out: &mut [u8], at: usize, front: FrontParts, head: AttributeHeadParts)
    requires attribute_kind_in_bounds { at + room_for attribute_kind ≤ length out.old }
    requires front_fits { FrontFits front }
    requires flags_bound { head.flags < 16 }
    ensures { out.new ≡ put at (catalogue_bytes layout (attribute_first front head ∷ [])) out.old }
{
    let doc = front.doc;
    let first = First {
        kind: ATTRIBUTE,
        place: 0,
        maturity: front.maturity,
        doc_present: doc_bit(doc),
        flags: head.flags * 8,
        name: 0,
        name_length: 0,
        first_privilege: head.read,
        second_privilege: head.write,
    };
    put_documented(out, at, first, doc);
}

// The second pass over an attribute.
pub fn write_attribute(
    part: &[u8],
    base: usize,
    front: FrontParts,
    out: &mut [u8],
    at: usize,
) -> Wrote
    requires part_bound { base + length part.now ≤ text_limit }
    requires front_fits { FrontFits front }
    requires room { Room attribute_records (parse_attribute_after_doc_maturity (doc_of front.doc) (maturity_number front.maturity)) base part.now at (length out.old) }
    ensures { Written attribute_records (parse_attribute_after_doc_maturity (doc_of front.doc) (maturity_number front.maturity)) base part.now at result out.old out.new }
{
    let nothing = Wrote { next: base, to: at };
    let Ok((h, c1)) = attribute_head(part, base) else {
        return nothing;
    };
    let Ok((field, c2)) = closed_field(rest_at(part, base, c1), c1) else {
        return nothing;
    };
    put_field(out, at + ATTRIBUTE_BYTES, field);
    put_attribute(out, at, front, h);
    Wrote {
        next: c2,
        to: at + WHOLE_ATTRIBUTE_BYTES,
    }
}
