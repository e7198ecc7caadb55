// Clusters.
ghost use Rattle.std.specs.Prelude.{◌≡◌, true, [], ◌∷◌, ◌+◌, ◌≤◌, length};
ghost use Rattle.lexing.specs.words.{is_key, any_keyword};
ghost use Rattle.lexing.specs.answers.{word_reply, doc_of, Skips, NameIn};
ghost use Rattle.items.specs.layout.{text_limit, layout, catalogue_bytes};
ghost use Rattle.lexing.specs.buffers.{put, each};
ghost use Rattle.items.specs.inner.clusters.{members_rest, MembersWritten, cluster_first, MembersCountTo, ClusterHeadTo, unhoisted_records, ClusterCountTo};
ghost use Rattle.items.specs.inner.members.{unhoisted};
ghost use Rattle.items.specs.entries.{braces};
ghost use Rattle.items.specs.clusters.{cluster_members, side, cluster_after_doc_maturity};
ghost use Rattle.items.specs.answers.{FrontFits, Room, Written, maturity_number};
ghost use Rattle.items.specs.records.{cluster_kind};
ghost use Rattle.items.specs.inner.writing.{room_for};

use crate::counts::{closed, count_end};
use crate::layout::{CLUSTER, CLUSTER_BYTES, CLUSTER_WORDS};
use crate::levels::Privilege;
use crate::members::{MembersWrote, count_member, write_member};
use crate::writing::{First, FrontParts, Wrote, doc_bit, doc_word, first_word};
use lexing::answers::{Read, Step, optional};
use lexing::blanks::whitespace0;
use lexing::buffers::put_words;
use lexing::names::{blank_equals_code, keyword_name};
use lexing::parts::rest_at;
use lexing::steps::{blank_at, gap_at};
use lexing::words::{keyword, tag};

// Up to the braces: the offsets of its name and after it, and its code.
#[derive(Clone, Copy)]
pub struct ClusterHeadParts {
    pub name: usize,
    pub code: u64,
    pub end: usize,
}

// The first pass over members. It is no `count_run`: members are counted for any place of types (`CountsTo`), and no reader answers a member.
fn count_members(part: &[u8], base: usize) -> Read<usize>
    requires { base + length part.now ≤ text_limit }
    ensures { MembersCountTo cluster_members result base part.now }
{
    let mut c = base;
    let mut n = 0;
    loop {
        match count_member(rest_at(part, base, c), c) {
            Ok((k, next)) => {
                c = next;
                n += k;
            }
            Err(l) => return count_end(l, n, c),
        }
    }
}

// The first pass over the members between braces.
fn count_braced_members(part: &[u8], base: usize) -> Read<usize>
    requires { base + length part.now ≤ text_limit }
    ensures { MembersCountTo (braces cluster_members) result base part.now }
{
    let c = tag(part, base, b'{')?;
    let run = count_members(rest_at(part, base, c), c);
    closed(part, base, run)
}

// One keyword or, where it is not there, another.
fn either(part: &[u8], base: usize, first: &[u8], second: &[u8]) -> Step
    requires part_bound { base + length part.now ≤ text_limit }
    requires first_value { (is_key first.now ≡ true) × (is_key second.now ≡ true) }
    ensures { word_reply result base part.now ≡ any_keyword (first.now ∷ second.now ∷ []) base part.now }
{
    let word = keyword(part, base, first);
    if let Ok(_) = word {
        return word;
    }
    keyword(part, base, second)
}

fn side(part: &[u8], base: usize) -> Step
    requires { base + length part.now ≤ text_limit }
    ensures { Skips side result base part.now }
{
    let c = either(part, base, b"client", b"server")?;
    gap_at(part, base, c)
}

pub fn cluster_head(part: &[u8], base: usize) -> Read<ClusterHeadParts>
    requires { base + length part.now ≤ text_limit }
    ensures { ClusterHeadTo result base part.now }
{
    let part = &part[..];
    let c1 = optional(side(part, base), base)?;
    let (named, c2) = keyword_name(rest_at(part, base, c1), c1, b"cluster")?;
    let (code, c3) = blank_equals_code(part, base, c2)?;
    let c4 = blank_at(part, base, c3);
    Ok((
        ClusterHeadParts {
            name: named.start,
            end: named.end,
            code,
        },
        c4,
    ))
}

// The first pass over a cluster: four words, and those of its members.
pub fn count_cluster(part: &[u8], base: usize) -> Read<usize>
    requires { base + length part.now ≤ text_limit }
    ensures { ClusterCountTo result base part.now }
{
    let (_, c1) = cluster_head(part, base)?;
    let (n, c2) = count_braced_members(rest_at(part, base, c1), c1)?;
    Ok((n + CLUSTER_WORDS, c2))
}

// The second pass over members and the closing brace after them.
fn write_members(part: &[u8], base: usize, out: &mut [u8], at: usize) -> MembersWrote
    requires part_bound { base + length part.now ≤ text_limit }
    requires room { Room (each unhoisted) members_rest base part.now at (length out.old) }
    ensures { MembersWritten members_rest base part.now at result out.old out.new }
{
    let mut c = base;
    let mut to = at;
    let mut revision = 0;
    loop {
        let w = whitespace0(rest_at(part, base, c), c);
        let start = w.next;
        let close = tag(rest_at(part, base, start), start, b'}');
        if let Ok(next) = close {
            return MembersWrote { next, to, revision };
        }
        let doc = w.doc;
        let wrote = write_member(rest_at(part, base, start), start, doc, revision, out, to);
        c = wrote.next;
        to = wrote.to;
        revision = wrote.revision;
    }
}

// The second pass over members between braces.
fn write_braced_members(part: &[u8], base: usize, out: &mut [u8], at: usize) -> MembersWrote
    requires part_bound { base + length part.now ≤ text_limit }
    requires room { Room (each unhoisted) (braces cluster_members) base part.now at (length out.old) }
    ensures { MembersWritten (braces cluster_members) base part.now at result out.old out.new }
{
    let brace = tag(part, base, b'{');
    let Ok(c) = brace else {
        return MembersWrote {
            next: base,
            to: at,
            revision: 0,
        };
    };
    write_members(rest_at(part, base, c), c, out, at)
}

// The first record of a cluster.
fn put_cluster(out: &mut [u8], at: usize, front: FrontParts, head: ClusterHeadParts, revision: u64)
    requires cluster_kind_in_bounds { at + room_for cluster_kind ≤ length out.old }
    requires front_fits { FrontFits front }
    requires name_in { NameIn 0 head.name head.end text_limit }
    ensures { out.new ≡ put at (catalogue_bytes layout (cluster_first front head revision ∷ [])) out.old }
{
    let doc = front.doc;
    let first = First {
        kind: CLUSTER,
        place: 0,
        maturity: front.maturity,
        doc_present: doc_bit(doc),
        flags: 0,
        name: head.name,
        name_length: head.end - head.name,
        first_privilege: Privilege::View,
        second_privilege: Privilege::View,
    };
    let word = first_word(first);
    put_words(out, at, [word, doc_word(doc), head.code, revision]);
}

// The second pass over a cluster: its members first, since they tell the last revision.
pub fn write_cluster(
    part: &[u8],
    base: usize,
    front: FrontParts,
    out: &mut [u8],
    at: usize,
) -> Wrote
    requires part_bound { base + length part.now ≤ text_limit }
    requires front_fits { FrontFits front }
    requires room { Room unhoisted_records (cluster_after_doc_maturity (doc_of front.doc) (maturity_number front.maturity)) base part.now at (length out.old) }
    ensures { Written unhoisted_records (cluster_after_doc_maturity (doc_of front.doc) (maturity_number front.maturity)) base part.now at result out.old out.new }
{
    let Ok((h, c)) = cluster_head(part, base) else {
        return Wrote { next: base, to: at };
    };
    let wrote = write_braced_members(rest_at(part, base, c), c, out, at + CLUSTER_BYTES);
    put_cluster(out, at, front, h, wrote.revision);
    Wrote {
        next: wrote.next,
        to: wrote.to,
    }
}
