// Members of a cluster.
ghost use Rattle.std.specs.Prelude.{◌≡◌, ◌+◌, ◌≤◌, ◌<◌, length};
ghost use Rattle.lexing.specs.reply.{ok};
ghost use Rattle.lexing.specs.answers.{doc_of};
ghost use Rattle.lexing.specs.blanks.{no_doc, whitespace0};
ghost use Rattle.items.specs.layout.{text_limit};
ghost use Rattle.items.specs.inner.member_kinds.{MemberFrom, member_try};
ghost use Rattle.items.specs.inner.members.{member_after, unhoisted, MemberWritten, revision_wrote, RevisionTo, MemberCountTo};
ghost use Rattle.items.specs.clusters.{parse_revision, member_tries, parse_cluster_member};
ghost use Rattle.items.specs.answers.{DocFits, Room, maturity_number};

use crate::attributes::{count_attribute, write_attribute};
use crate::choices::{count_choice, write_choice};
use crate::commands::{count_command, write_command};
use crate::counts::fail_no_earlier;
use crate::events::{count_event, write_event};
use crate::layout::Kind;
use crate::maturity::{Maturity, maturity_between};
use crate::member_kinds::{MemberKind, MemberStart, member_kind};
use crate::structs::{count_struct, write_struct};
use crate::writing::{FrontParts, Wrote};
use lexing::answers::{Lost, Read};
use lexing::blanks::{DocSpan, whitespace0};
use lexing::names::keyword_number;
use lexing::parts::rest_at;
use lexing::steps::tag_after;

// Where reading and writing are, and the last revision so far.
#[derive(Clone, Copy)]
pub struct MembersWrote {
    pub next: usize,
    pub to: usize,
    pub revision: u64,
}

pub fn parse_revision(part: &[u8], base: usize) -> Read<u64>
    requires { base + length part.now ≤ text_limit }
    ensures { RevisionTo result base part.now }
{
    let part = &part[..];
    let (n, c1) = keyword_number(part, base, b"revision")?;
    let c2 = tag_after(part, base, c1, b';')?;
    Ok((n, c2))
}

// A revision takes no words of its own.
fn count_revision(part: &[u8], base: usize) -> Read<usize>
    requires { base + length part.now ≤ text_limit }
    ensures { MemberCountTo parse_revision result base part.now }
{
    let (_, c) = parse_revision(part, base)?;
    Ok((0, c))
}

// The first pass over a member of a kind.
fn count_member_of_kind(
    part: &[u8],
    base: usize,
    k: MemberStart,
    doc: Option<DocSpan>,
    maturity: Maturity,
) -> Read<usize>
    requires part_bound { base + length part.now ≤ text_limit }
    requires member_from { MemberFrom k.kind k.from base part.now }
    ensures { MemberCountTo (member_try k.kind (doc_of doc) (maturity_number maturity)) result base part.now }
{
    let kind = k.kind;
    match kind {
        MemberKind::Revision => count_revision(part, base),
        MemberKind::Bitmap => count_choice(part, base, k.from, b"bitmap"),
        MemberKind::Enum => count_choice(part, base, k.from, b"enum"),
        MemberKind::Struct => count_struct(part, base, k.from),
        MemberKind::Attribute => count_attribute(part, base),
        MemberKind::Command => count_command(part, base),
        MemberKind::Event => count_event(part, base),
        MemberKind::Unknown => Err(Lost::Fail(base)),
    }
}

// The one try that a member's first word selects.
fn count_member_tries(
    part: &[u8],
    base: usize,
    doc: Option<DocSpan>,
    maturity: Maturity,
) -> Read<usize>
    requires part_bound { base + length part.now ≤ text_limit }
    requires part_value { whitespace0 base part.now ≡ ok no_doc base part.now }
    ensures { MemberCountTo (member_tries (doc_of doc) (maturity_number maturity)) result base part.now }
{
    let k = member_kind(part, base);
    let r = count_member_of_kind(part, base, k, doc, maturity);
    fail_no_earlier(r, k.others_fail_at)
}

// The first pass over a member: its doc comment and its maturity are read once.
pub fn count_member(part: &[u8], base: usize) -> Read<usize>
    requires { base + length part.now ≤ text_limit }
    ensures { MemberCountTo parse_cluster_member result base part.now }
{
    let w1 = whitespace0(part, base);
    let c1 = w1.next;
    let (maturity, c2) = maturity_between(rest_at(part, base, c1), c1);
    let doc = w1.doc;
    count_member_tries(rest_at(part, base, c2), c2, doc, maturity)
}

// What a member other than a revision leaves: the last revision as it was.
fn kept(w: Wrote, revision: u64) -> MembersWrote
    ensures { result ≡ record { next = w.next; to = w.to; revision = revision } }
{
    MembersWrote {
        next: w.next,
        to: w.to,
        revision,
    }
}

// What a revision leaves: it has no records, and takes the place of the last one.
fn revised(r: Read<u64>, base: usize, at: usize, last: u64) -> MembersWrote
    ensures { result ≡ revision_wrote r base at last }
{
    match r {
        Ok((revision, next)) => MembersWrote {
            next,
            to: at,
            revision,
        },
        Err(_) => MembersWrote {
            next: base,
            to: at,
            revision: last,
        },
    }
}

// The second pass over a member of a kind.
fn write_member_of_kind(
    part: &[u8],
    base: usize,
    k: MemberStart,
    doc: Option<DocSpan>,
    maturity: Maturity,
    last: u64,
    out: &mut [u8],
    at: usize,
) -> MembersWrote
    requires part_bound { base + length part.now ≤ text_limit }
    requires member_from { MemberFrom k.kind k.from base part.now }
    requires doc_fits { DocFits doc }
    requires room { Room unhoisted (member_try k.kind (doc_of doc) (maturity_number maturity)) base part.now at (length out.old) }
    ensures { MemberWritten last (member_try k.kind (doc_of doc) (maturity_number maturity)) base part.now at result out.old out.new }
{
    // Only an enum and a bitmap take their record's kind from it.
    let front = FrontParts {
        kind: Kind::Enum,
        place: 0,
        doc,
        maturity,
    };
    let kind = k.kind;
    match kind {
        MemberKind::Revision => revised(parse_revision(part, base), base, at, last),
        MemberKind::Bitmap => {
            let front = FrontParts {
                kind: Kind::Bitmap,
                place: 0,
                doc,
                maturity,
            };
            kept(
                write_choice(part, base, k.from, b"bitmap", front, out, at),
                last,
            )
        }
        MemberKind::Enum => {
            kept(
                write_choice(part, base, k.from, b"enum", front, out, at),
                last,
            )
        }
        MemberKind::Struct => kept(write_struct(part, base, k.from, front, out, at), last),
        MemberKind::Attribute => kept(write_attribute(part, base, front, out, at), last),
        MemberKind::Command => kept(write_command(part, base, front, out, at), last),
        MemberKind::Event => kept(write_event(part, base, front, out, at), last),
        MemberKind::Unknown => MembersWrote {
            next: base,
            to: at,
            revision: last,
        },
    }
}

// The second pass over a member after the blanks before it, which hold its doc comment.
pub fn write_member(
    part: &[u8],
    base: usize,
    doc: Option<DocSpan>,
    last: u64,
    out: &mut [u8],
    at: usize,
) -> MembersWrote
    requires part_bound { base + length part.now ≤ text_limit }
    requires part_value { whitespace0 base part.now ≡ ok no_doc base part.now }
    requires doc_fits { DocFits doc }
    requires room { Room unhoisted (member_after (doc_of doc)) base part.now at (length out.old) }
    ensures { MemberWritten last (member_after (doc_of doc)) base part.now at result out.old out.new }
{
    let (maturity, c) = maturity_between(part, base);
    let rest = rest_at(part, base, c);
    let k = member_kind(rest, c);
    write_member_of_kind(rest, c, k, doc, maturity, last, out, at)
}
