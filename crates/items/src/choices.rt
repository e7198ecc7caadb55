// Enums and bitmaps: one but for the keyword.
ghost use Rattle.std.specs.Prelude.{◌≡◌, true, ◌+◌, ◌≤◌, length, [], ◌∷◌};
ghost use Rattle.lexing.specs.words.{is_key};
ghost use Rattle.lexing.specs.answers.{doc_of};
ghost use Rattle.items.specs.entries.{choice_after_doc_maturity};
ghost use Rattle.items.specs.records.{choice_records, enum_kind};
ghost use Rattle.items.specs.layout.{text_limit, layout, catalogue_bytes};
ghost use Rattle.lexing.specs.buffers.{put};
ghost use Rattle.items.specs.answers.{FrontFits, Room, Written, kind_number, maturity_number};
ghost use Rattle.items.specs.inner.choices.{ChoiceFrom, ChoiceHeadBetween, ChoiceHeadTo, ChoiceCountTo, choice_first};
ghost use Rattle.items.specs.inner.writing.{room_for};

use crate::entries::{count_entries_list, write_entries_list};
use crate::layout::{CHOICE_BYTES, CHOICE_WORDS};
use crate::levels::Privilege;
use crate::writing::{First, FrontParts, Wrote, doc_bit, doc_word, first_word, flag, span_word};
use lexing::answers::Read;
use lexing::buffers::put_words;
use lexing::names::keyword_name;
use lexing::parts::rest_at;
use lexing::steps::{blank_at, tag_after};
use lexing::words::id_at;

// Up to the entries: whether it is shared, and the offsets of its name and of its base type and after them.
#[derive(Clone, Copy)]
pub struct ChoiceHeadParts {
    pub shared: bool,
    pub name: usize,
    pub base_at: usize,
    pub end: usize,
    pub base_end: usize,
}

// From after `shared` on, whose blanks the caller has read.
pub fn choice_head(part: &[u8], base: usize, from: usize, key: &[u8]) -> Read<ChoiceHeadParts>
    requires part_bound { base + length part.now ≤ text_limit }
    requires choice_from { ChoiceFrom from base part.now }
    requires key_value { is_key key.now ≡ true }
    ensures { ChoiceHeadTo key.now result base part.now }
{
    let part = &part[..];
    let key = &key[..];
    let (named, c1) = keyword_name(rest_at(part, base, from), from, key)?;
    // Read in place.
    let c2 = tag_after(part, base, c1, b':')?;
    let base_at = blank_at(part, base, c2);
    let base_end = id_at(part, base, base_at)?;
    let c3 = blank_at(part, base, base_end);
    Ok((
        ChoiceHeadParts {
            shared: base < from,
            name: named.start,
            end: named.end,
            base_at,
            base_end,
        },
        c3,
    ))
}

// The first pass over an enum or a bitmap: three words, and those of its entries.
pub fn count_choice(part: &[u8], base: usize, from: usize, key: &[u8]) -> Read<usize>
    requires part_bound { base + length part.now ≤ text_limit }
    requires choice_from { ChoiceFrom from base part.now }
    requires key_value { is_key key.now ≡ true }
    ensures { ChoiceCountTo key.now result base part.now }
{
    let part = &part[..];
    let key = &key[..];
    let (_, c1) = choice_head(part, base, from, key)?;
    let (n, c2) = count_entries_list(rest_at(part, base, c1), c1)?;
    Ok((n + CHOICE_WORDS, c2))
}

// The first record of an enum or a bitmap, by its kind.
fn put_choice(out: &mut [u8], at: usize, front: FrontParts, head: ChoiceHeadParts)
    requires enum_kind_in_bounds { at + room_for enum_kind ≤ length out.old }
    requires front_fits { FrontFits front }
    requires choice_head_between { ChoiceHeadBetween 0 head text_limit }
    ensures { out.new ≡ put at (catalogue_bytes layout (choice_first front head ∷ [])) out.old }
{
    let doc = front.doc;
    let first = First {
        kind: front.kind.number(),
        place: front.place,
        maturity: front.maturity,
        doc_present: doc_bit(doc),
        flags: flag(head.shared) * 64,
        name: head.name,
        name_length: head.end - head.name,
        first_privilege: Privilege::View,
        second_privilege: Privilege::View,
    };
    let base = span_word(head.base_at, head.base_end - head.base_at);
    put_words(out, at, [first_word(first), doc_word(doc), base]);
}

// The second pass over an enum or a bitmap.
pub fn write_choice(
    part: &[u8],
    base: usize,
    from: usize,
    key: &[u8],
    front: FrontParts,
    out: &mut [u8],
    at: usize,
) -> Wrote
    requires part_bound { base + length part.now ≤ text_limit }
    requires choice_from { ChoiceFrom from base part.now }
    requires front_fits { FrontFits front }
    requires room { Room (choice_records (kind_number front.kind) front.place) (choice_after_doc_maturity key.now (doc_of front.doc) (maturity_number front.maturity)) base part.now at (length out.old) }
    requires key_value { is_key key.now ≡ true }
    ensures { Written (choice_records (kind_number front.kind) front.place) (choice_after_doc_maturity key.now (doc_of front.doc) (maturity_number front.maturity)) base part.now at result out.old out.new }
{
    let part = &part[..];
    let key = &key[..];
    let Ok((h, c)) = choice_head(part, base, from, key) else {
        return Wrote { next: base, to: at };
    };
    let w = write_entries_list(rest_at(part, base, c), c, out, at + CHOICE_BYTES);
    put_choice(out, at, front, h);
    w
}
