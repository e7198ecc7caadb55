// Events.
ghost use Rattle.std.specs.Prelude.{◌≡◌, [], ◌∷◌, ◌+◌, ◌-◌, ◌≤◌, length};
ghost use Rattle.lexing.specs.answers.{doc_of, SkipsAt};
ghost use Rattle.items.specs.layout.{text_limit, layout, catalogue_bytes};
ghost use Rattle.lexing.specs.buffers.{put};
ghost use Rattle.items.specs.records.{event_records, event_kind};
ghost use Rattle.items.specs.members.{parse_event_after_doc_maturity};
ghost use Rattle.items.specs.answers.{FrontFits, Room, Written, maturity_number};
ghost use Rattle.items.specs.inner.events.{EventQualitiesTo, EventHeadTo, EventCountTo, EventHeadBetween, event_word, event_first};
ghost use Rattle.items.specs.inner.writing.{room_for};

use crate::fields::{count_struct_fields, write_struct_fields};
use crate::layout::{EVENT, EVENT_BYTES, EVENT_WORDS};
use crate::levels::{Priority, Privilege, access_to, event_priority};
use crate::writing::{First, FrontParts, Wrote, doc_bit, doc_word, first_word};
use lexing::answers::{Read, Step};
use lexing::buffers::put_words;
use lexing::names::{blank_equals_code, blank_word};
use lexing::parts::rest_at;
use lexing::steps::{blank_at, gap_at};
use lexing::word_sets::{KeywordSet, keywords_set};
use lexing::words::keyword;

// Up to an event's name: its flag, its priority and the privilege to read it.
#[derive(Clone, Copy)]
pub struct EventQualitiesParts {
    pub sensitive: u8,
    pub rank: Priority,
    pub privilege: Privilege,
}

// An event up to its fields: the offsets of its name and after it, and its code.
#[derive(Clone, Copy)]
pub struct EventHeadParts {
    pub sensitive: u8,
    pub rank: Priority,
    pub privilege: Privilege,
    pub name: usize,
    pub code: u64,
    pub end: usize,
}

// The word `event`, and blanks before and after it.
fn event_word(part: &[u8], base: usize, c: usize) -> Step
    requires { ((base ≤ c) × (c ≤ base + length part.now)) × (base + length part.now ≤ text_limit) }
    ensures { SkipsAt event_word result base part.now c }
{
    let c1 = gap_at(part, base, c)?;
    let c2 = keyword(rest_at(part, base, c1), c1, b"event")?;
    gap_at(part, base, c2)
}

pub fn event_qualities(part: &[u8], base: usize) -> Read<EventQualitiesParts>
    requires { base + length part.now ≤ text_limit }
    ensures { EventQualitiesTo result base part.now }
{
    let q = keywords_set(part, base, KeywordSet::Event);
    let c1 = q.next;
    let c2 = blank_at(part, base, c1);
    let (rank, c3) = event_priority(rest_at(part, base, c2), c2)?;
    let c4 = event_word(part, base, c3)?;
    let (privilege, c5) = access_to(rest_at(part, base, c4), c4, b"read", Privilege::View);
    Ok((
        EventQualitiesParts {
            sensitive: q.flags,
            rank,
            privilege,
        },
        c5,
    ))
}

pub fn event_head(part: &[u8], base: usize) -> Read<EventHeadParts>
    requires { base + length part.now ≤ text_limit }
    ensures { EventHeadTo result base part.now }
{
    let part = &part[..];
    let (q, c1) = event_qualities(part, base)?;
    let (named, c2) = blank_word(part, base, c1)?;
    let (code, c3) = blank_equals_code(part, base, c2)?;
    let c4 = blank_at(part, base, c3);
    Ok((
        EventHeadParts {
            sensitive: q.sensitive,
            rank: q.rank,
            privilege: q.privilege,
            name: named.start,
            end: named.end,
            code,
        },
        c4,
    ))
}

// The first pass over an event: three words, and those of its fields.
pub fn count_event(part: &[u8], base: usize) -> Read<usize>
    requires { base + length part.now ≤ text_limit }
    ensures { EventCountTo result base part.now }
{
    let (_, c1) = event_head(part, base)?;
    let (n, c2) = count_struct_fields(rest_at(part, base, c1), c1)?;
    Ok((n + EVENT_WORDS, c2))
}

// The first record of an event.
fn put_event(out: &mut [u8], at: usize, front: FrontParts, head: EventHeadParts)
    requires event_kind_in_bounds { at + room_for event_kind ≤ length out.old }
    requires front_fits { FrontFits front }
    requires event_head_between { EventHeadBetween 0 head text_limit }
    ensures { out.new ≡ put at (catalogue_bytes layout (event_first front head ∷ [])) out.old }
{
    let doc = front.doc;
    let first = First {
        kind: EVENT,
        place: 0,
        maturity: front.maturity,
        doc_present: doc_bit(doc),
        flags: head.rank.number() * 32 + head.sensitive * 16,
        name: head.name,
        name_length: head.end - head.name,
        first_privilege: head.privilege,
        second_privilege: Privilege::View,
    };
    put_words(out, at, [first_word(first), doc_word(doc), head.code]);
}

// The second pass over an event.
pub fn write_event(part: &[u8], base: usize, front: FrontParts, out: &mut [u8], at: usize) -> Wrote
    requires part_bound { base + length part.now ≤ text_limit }
    requires front_fits { FrontFits front }
    requires room { Room event_records (parse_event_after_doc_maturity (doc_of front.doc) (maturity_number front.maturity)) base part.now at (length out.old) }
    ensures { Written event_records (parse_event_after_doc_maturity (doc_of front.doc) (maturity_number front.maturity)) base part.now at result out.old out.new }
{
    let Ok((h, c)) = event_head(part, base) else {
        return Wrote { next: base, to: at };
    };
    let w = write_struct_fields(rest_at(part, base, c), c, out, at + EVENT_BYTES);
    put_event(out, at, front, h);
    w
}
