// The entries of enums and bitmaps.
ghost use Rattle.std.specs.Prelude.{◌≡◌, [], ◌∷◌, ◌+◌, ◌*◌, ◌≤◌, ◌<◌, length};
ghost use Rattle.items.specs.entries.{Entry, constant_entry, blank_entry, constant_entries, constant_entries_list};
ghost use Rattle.items.specs.records.{entry_records, entry_kind};
ghost use Rattle.items.specs.layout.{layout, catalogue_bytes, text_limit};
ghost use Rattle.lexing.specs.buffers.{each, put};
ghost use Rattle.items.specs.answers.{CountTo, Room, Written};
ghost use Rattle.items.specs.inner.entries.{entry_at, EntryBounds, EntryTo, EndTo, parts_record};
ghost use Rattle.items.specs.inner.writing.{room_for};

use crate::annotations::{count_annotations_list, write_entry_annotations};
use crate::layout::{ENTRY, ENTRY_BYTES, ENTRY_WORDS};
use crate::levels::Privilege;
use crate::maturity::{Maturity, maturity_between};
use crate::runs::{Element, count_braced, write_braced};
use crate::writing::{First, Wrote, first_word};
use lexing::answers::Read;
use lexing::buffers::put_words;
use lexing::names::equals_code;
use lexing::parts::rest_at;
use lexing::steps::{blank_at, tag_after};
use lexing::words::{id_at, tag};

// An entry: its maturity, the offsets of its name and after it, its code, the offset after that, and the words of its annotations, which are from there on.
#[derive(Clone, Copy)]
pub struct EntryParts {
    pub maturity: Maturity,
    pub name: usize,
    pub code: u64,
    pub end: usize,
    pub list: usize,
    pub words: usize,
}

// What follows the code of an entry: the words of its annotations, and where it ends.
fn entry_end(part: &[u8], base: usize) -> Read<usize>
    requires { base + length part.now ≤ text_limit }
    ensures { EndTo result base part.now }
{
    let c1 = blank_at(part, base, base);
    let (n, c2) = count_annotations_list(rest_at(part, base, c1), c1)?;
    let c3 = tag_after(part, base, c2, b';')?;
    Ok((n, c3))
}

// An entry reads the blanks before it itself, and takes two words and those of its annotations. Nothing of it is written before it is read whole. `read` is
// the Rust's `constant_entry`; it holds the steps itself, since a call of a function that holds them costs a tenth of the time.
impl Element for EntryParts {
    ghost Value = { Entry };

    ghost stands = { entry_at };

    ghost reads = { blank_entry };

    ghost records = { entry_records };

    ghost all = { each entry_records };

    ghost Bounds = { λ u b e. EntryBounds b u e };

    ghost size = { λ e. 2 + e.words };

    fn read(part: &[u8], base: usize) -> Read<EntryParts> {
        let part = &part[..];
        let (maturity, start) = maturity_between(part, base);
        let end = id_at(part, base, start)?;
        let equals = blank_at(part, base, end);
        let (code, c) = equals_code(part, base, equals)?;
        let (words, next) = entry_end(rest_at(part, base, c), c)?;
        let e = EntryParts {
            maturity,
            name: start,
            end,
            code,
            list: c,
            words,
        };
        Ok((e, next))
    }

    fn words(&self) -> usize {
        ENTRY_WORDS + self.words
    }

    fn write(self, part: &[u8], base: usize, out: &mut [u8], at: usize) {
        write_entry(part, base, self, out, at);
    }
}

// The entries between braces.
pub fn count_entries_list(part: &[u8], base: usize) -> Read<usize>
    requires { base + length part.now ≤ text_limit }
    ensures { CountTo (each entry_records) constant_entries_list result base part.now }
{
    count_braced::<EntryParts>(part, base)
}

// The two words of an entry's record.
fn put_entry(out: &mut [u8], at: usize, e: EntryParts)
    requires entry_kind_in_bounds { at + room_for entry_kind ≤ length out.old }
    requires name_le_end { e.name ≤ e.end }
    requires end_le_text_limit { e.end ≤ text_limit }
    ensures { out.new ≡ put at (catalogue_bytes layout (parts_record e ∷ [])) out.old }
{
    let first = First {
        kind: ENTRY,
        place: 0,
        maturity: e.maturity,
        doc_present: 0,
        flags: 0,
        name: e.name,
        name_length: e.end - e.name,
        first_privilege: Privilege::View,
        second_privilege: Privilege::View,
    };
    put_words(out, at, [first_word(first), e.code]);
}

// The records of an entry that was read: its own, and those of its annotations, which are read again where there are some.
fn write_entry(part: &[u8], base: usize, e: EntryParts, out: &mut [u8], at: usize)
    requires part_bound { base + length part.now ≤ text_limit }
    requires entry_bounds { EntryBounds base part.now e (base + length part.now) }
    requires words_in_bounds { at + 8 * (2 + e.words) ≤ length out.old }
    ensures { out.new ≡ put at (catalogue_bytes layout (entry_records (entry_at base part.now e))) out.old }
{
    let after = at + ENTRY_BYTES;
    put_entry(out, at, e);
    if e.words == 0 {
        return;
    }
    let list = e.list;
    write_entry_annotations(rest_at(part, base, list), list, out, after);
}

// The second pass over the entries between braces.
pub fn write_entries_list(part: &[u8], base: usize, out: &mut [u8], at: usize) -> Wrote
    requires part_bound { base + length part.now ≤ text_limit }
    requires room { Room (each entry_records) constant_entries_list base part.now at (length out.old) }
    ensures { Written (each entry_records) constant_entries_list base part.now at result out.old out.new }
{
    write_braced::<EntryParts>(part, base, out, at)
}
