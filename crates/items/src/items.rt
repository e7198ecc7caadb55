// Items: what is at the top of a text, each by the kind that its first word says.
ghost use Rattle.std.specs.Prelude.{◌≡◌, ◌+◌, ◌≤◌, ◌<◌, length};
ghost use Rattle.lexing.specs.reply.{ok};
ghost use Rattle.lexing.specs.words.{any_keyword};
ghost use Rattle.lexing.specs.blanks.{no_doc, whitespace0};
ghost use Rattle.lexing.specs.answers.{doc_of};
ghost use Rattle.items.specs.layout.{text_limit};
ghost use Rattle.items.specs.answers.items.{declaration, unhoisted_item, DeclarationCountTo};
ghost use Rattle.items.specs.items.{item};
ghost use Rattle.items.specs.answers.{CountTo, DocFits, Room, Written, maturity_number};
ghost use Rattle.items.specs.inner.member_kinds.{is_ok};
ghost use Rattle.items.specs.inner.items.{cluster_starts, type_kind, declaration_try, DeclarationFrom, KindCountTo, StartTo};

use crate::choices::{count_choice, write_choice};
use crate::clusters::{count_cluster, write_cluster};
use crate::counts::{count_end, fail_no_earlier};
use crate::endpoints::{count_endpoint, write_endpoint};
use crate::layout::Kind;
use crate::maturity::{Maturity, maturity_blank};
use crate::member_kinds::{MemberKind, member_kind, starts};
use crate::structs::{count_struct, write_struct};
use crate::writing::{FrontParts, Wrote};
use lexing::answers::{Lost, Read};
use lexing::blanks::{DocSpan, whitespace0};
use lexing::parts::rest_at;

// What a declaration is by its first word.
#[derive(Clone, Copy)]
pub enum DeclarationKind {
    Cluster,
    Endpoint,
    Enum,
    Bitmap,
    Struct,
    Unknown,
}

// How a declaration starts: the one try that its first word selects, the furthest place at which the others fail, its maturity, where the try is and, after `shared`, where it goes on.
#[derive(Clone, Copy)]
pub struct DeclarationStart {
    pub kind: DeclarationKind,
    pub others_fail_at: usize,
    pub maturity: Maturity,
    pub next: usize,
    pub from: usize,
}

fn starts_cluster(part: &[u8], base: usize) -> bool
    requires { base + length part.now ≤ text_limit }
    ensures { result ≡ is_ok (any_keyword cluster_starts base part.now) }
{
    if starts(part, base, b"client") {
        return true;
    }
    if starts(part, base, b"server") {
        return true;
    }
    starts(part, base, b"cluster")
}

// Of the kinds of members only types are at the top.
fn type_kind(kind: MemberKind) -> DeclarationKind
    ensures { result ≡ type_kind kind }
{
    match kind {
        MemberKind::Revision => DeclarationKind::Unknown,
        MemberKind::Bitmap => DeclarationKind::Bitmap,
        MemberKind::Enum => DeclarationKind::Enum,
        MemberKind::Struct => DeclarationKind::Struct,
        MemberKind::Attribute => DeclarationKind::Unknown,
        MemberKind::Command => DeclarationKind::Unknown,
        MemberKind::Event => DeclarationKind::Unknown,
        MemberKind::Unknown => DeclarationKind::Unknown,
    }
}

// How a declaration starts, where no blank is before it. An endpoint has no maturity.
fn declaration_start(part: &[u8], base: usize) -> DeclarationStart
    requires part_bound { base + length part.now ≤ text_limit }
    requires part_value { whitespace0 base part.now ≡ ok no_doc base part.now }
    ensures { StartTo result base part.now }
{
    let part = &part[..];
    if starts(part, base, b"endpoint") {
        return DeclarationStart {
            kind: DeclarationKind::Endpoint,
            others_fail_at: base,
            maturity: Maturity::Stable,
            next: base,
            from: base,
        };
    }
    let (maturity, c) = maturity_blank(part, base);
    if starts_cluster(rest_at(part, base, c), c) {
        return DeclarationStart {
            kind: DeclarationKind::Cluster,
            others_fail_at: c,
            maturity,
            next: c,
            from: c,
        };
    }
    let k = member_kind(rest_at(part, base, c), c);
    let kind = k.kind;
    DeclarationStart {
        kind: type_kind(kind),
        others_fail_at: k.others_fail_at,
        maturity,
        next: c,
        from: k.from,
    }
}

// The first pass over a declaration of a kind.
fn count_declaration_of_kind(part: &[u8], s: DeclarationStart) -> Read<usize>
    requires part_bound { s.next + length part.now ≤ text_limit }
    requires declaration_from { DeclarationFrom s.kind s.from s.next part.now }
    ensures { KindCountTo s.kind result s.next part.now }
{
    let base = s.next;
    let kind = s.kind;
    match kind {
        DeclarationKind::Cluster => count_cluster(part, base),
        DeclarationKind::Endpoint => count_endpoint(part, base),
        DeclarationKind::Enum => count_choice(part, base, s.from, b"enum"),
        DeclarationKind::Bitmap => count_choice(part, base, s.from, b"bitmap"),
        DeclarationKind::Struct => count_struct(part, base, s.from),
        DeclarationKind::Unknown => Err(Lost::Fail(base)),
    }
}

// The first pass over a declaration, where no blank is before it.
pub fn count_declaration(part: &[u8], base: usize) -> Read<usize>
    requires part_bound { base + length part.now ≤ text_limit }
    requires part_value { whitespace0 base part.now ≡ ok no_doc base part.now }
    ensures { DeclarationCountTo result base part.now }
{
    let s = declaration_start(part, base);
    let r = count_declaration_of_kind(rest_at(part, base, s.next), s);
    fail_no_earlier(r, s.others_fail_at)
}

// The first pass over an item: blanks with no declaration after them are one.
pub fn count_item(part: &[u8], base: usize) -> Read<usize>
    requires { base + length part.now ≤ text_limit }
    ensures { CountTo unhoisted_item item result base part.now }
{
    let w = whitespace0(part, base);
    let c = w.next;
    let r = count_declaration(rest_at(part, base, c), c);
    let Err(l) = r else {
        return r;
    };
    if c == base {
        return r;
    }
    count_end(l, 0, c)
}

// The second pass over a declaration of a kind. A type at the top is global.
fn write_declaration_of_kind(
    part: &[u8],
    s: DeclarationStart,
    doc: Option<DocSpan>,
    out: &mut [u8],
    at: usize,
) -> Wrote
    requires part_bound { s.next + length part.now ≤ text_limit }
    requires declaration_from { DeclarationFrom s.kind s.from s.next part.now }
    requires doc_fits { DocFits doc }
    requires room { Room unhoisted_item (declaration_try s.kind (doc_of doc) (maturity_number s.maturity)) s.next part.now at (length out.old) }
    ensures { Written unhoisted_item (declaration_try s.kind (doc_of doc) (maturity_number s.maturity)) s.next part.now at result out.old out.new }
{
    let base = s.next;
    let kind = s.kind;
    let maturity = s.maturity;
    // Only an enum and a bitmap take their record's kind from it, and a cluster has no place.
    let front = FrontParts {
        kind: Kind::Enum,
        place: 1,
        doc,
        maturity,
    };
    match kind {
        DeclarationKind::Cluster => write_cluster(part, base, front, out, at),
        DeclarationKind::Endpoint => write_endpoint(part, base, out, at),
        DeclarationKind::Enum => write_choice(part, base, s.from, b"enum", front, out, at),
        DeclarationKind::Bitmap => {
            let front = FrontParts {
                kind: Kind::Bitmap,
                place: 1,
                doc,
                maturity,
            };
            write_choice(part, base, s.from, b"bitmap", front, out, at)
        }
        DeclarationKind::Struct => write_struct(part, base, s.from, front, out, at),
        DeclarationKind::Unknown => Wrote { next: base, to: at },
    }
}

// The second pass over a declaration, where no blank is before it.
pub fn write_declaration(
    part: &[u8],
    base: usize,
    doc: Option<DocSpan>,
    out: &mut [u8],
    at: usize,
) -> Wrote
    requires part_bound { base + length part.now ≤ text_limit }
    requires part_value { whitespace0 base part.now ≡ ok no_doc base part.now }
    requires doc_fits { DocFits doc }
    requires room { Room unhoisted_item (declaration (doc_of doc)) base part.now at (length out.old) }
    ensures { Written unhoisted_item (declaration (doc_of doc)) base part.now at result out.old out.new }
{
    let s = declaration_start(part, base);
    write_declaration_of_kind(rest_at(part, base, s.next), s, doc, out, at)
}
