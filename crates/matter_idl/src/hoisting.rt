// Hoisting over the catalogue: the table of ids is a search of the records before, with a filter in front of it.
ghost use Rattle.std.specs.Prelude.{◌≡◌, ◌+◌, ◌≤◌, length};
ghost use Rattle.items.specs.layout.{kind_field, layout, words_of_kind};
ghost use Rattle.items.specs.stored.{value_at};
ghost use Rattle.matter_idl.specs.inner.hoisting.{NameInside, name_at, hits_at, hash_at, unmarked_at, Catalogue, HeldTo, KnownTo, Marking, MarkedTo, MayBeType, Unhoisted, HoistedTo};

use crate::bits::Bits;
use crate::filter::{add, hash_of, may_hold};
use crate::text::Text;
use items::layout::{BITMAP, ENUM, STRUCT, WORD};
use items::records::{
    flags_at, kind_at, name_length_at, name_offset_at, place_at, set_place, words_of,
};

// Places of types: hoisting gives one of them to each shared type of a cluster. Not an enum: a place is read back from a catalogue's byte, which `place == GLOBAL` compares as it is.
const GLOBAL: u8 = 1;

const DROPPED: u8 = 2;

// The name of the record at an offset of the catalogue.
fn name_at<'a>(text: &'a [u8], out: &[u8], at: usize) -> &'a [u8]
    requires at_in_bounds { at + 8 ≤ length out.now }
    requires name_inside { NameInside out.now at (length text.now) }
    ensures { result.now ≡ name_at text.now out.now at }
{
    let start = name_offset_at(out, at);
    &text[start..start + name_length_at(out, at)]
}

// Whether the record at an offset of the catalogue is that of a global type of a kind with a name.
fn is_global(text: &[u8], out: &[u8], at: usize, kind: u8, name: &[u8]) -> bool
    requires at_in_bounds { at + 8 ≤ length out.now }
    requires name_inside { NameInside out.now at (length text.now) }
    ensures { result ≡ hits_at text.now kind name.now out.now at }
{
    kind_at(out, at) == kind && place_at(out, at) == GLOBAL && name == name_at(text, out, at)
}

// How many words the record at an offset takes, where one of a kind takes as many as own says. After a record of that kind the next offset does not wait for what words_of loads.
fn words_at(out: &[u8], at: usize, kind: u8, own: usize) -> usize
    requires at_in_bounds { at + 8 ≤ length out.now }
    requires own_value { own ≡ words_of_kind layout kind }
    ensures { result ≡ words_of_kind layout (value_at layout kind_field out.now at) }
{
    let here = kind_at(out, at);
    if here == kind {
        return own;
    }
    words_of(here)
}

// Whether a record before an end is that of a global type of a kind with a name.
fn search_records(text: Text, out: &[u8], end: usize, kind: u8, name: &[u8]) -> bool
    requires { Catalogue (length text.bytes.now) out.now end }
    ensures { HeldTo result text.entry.bytes.now out.now end kind name.now }
{
    let own = words_of(kind);
    let mut at = 0;
    // Not a `for`: each step is as wide as its record says.
    while at < end {
        if is_global(text.bytes, out, at, kind, name) {
            return true;
        }
        at += WORD * words_at(out, at, kind, own);
    }
    false
}

// Whether the record at an offset is that of a shared type in a cluster that has no mark yet.
fn is_unmarked(out: &[u8], at: usize) -> bool
    requires { at + 8 ≤ length out.now }
    ensures { result ≡ unmarked_at out.now at }
{
    if place_at(out, at) != 0 {
        return false;
    }
    match kind_at(out, at) {
        STRUCT => flags_at(out, at) / 32 == 3,
        ENUM | BITMAP => flags_at(out, at) / 64 == 1,
        _ => false,
    }
}

// The hash of the id of the type whose record is at an offset.
fn id_hash(text: &[u8], out: &[u8], at: usize) -> u32
    requires at_in_bounds { at + 8 ≤ length out.now }
    requires name_inside { NameInside out.now at (length text.now) }
    ensures { result ≡ hash_at text.now out.now at }
{
    hash_of(kind_at(out, at), name_at(text, out, at))
}

// Whether a record before an end holds the id of the type whose record is at an offset, which has the hash h. They are searched only if the filter may hold it.
fn is_known(text: Text, out: &[u8], filter: &Bits, end: usize, at: usize, h: u32) -> bool
    requires catalogue { Catalogue (length text.bytes.now) out.now end }
    requires at_in_bounds { at + 8 ≤ length out.now }
    requires name_inside { NameInside out.now at (length text.bytes.now) }
    requires h_value { h ≡ hash_at text.bytes.now out.now at }
    ensures { KnownTo result text.entry.bytes.now out.now filter.now end at }
{
    if !may_hold(filter, h) {
        return false;
    }
    search_records(
        text,
        out,
        end,
        kind_at(out, at),
        name_at(text.bytes, out, at),
    )
}

// Marks the record at an offset: dropped if a record before start holds its id, else global. The id of a global type joins the filter.
fn mark_record(text: Text, out: &mut [u8], filter: &mut Bits, start: usize, at: usize)
    requires { Marking text.bytes.now out.old filter.old start at }
    ensures { MarkedTo out.new filter.new text.entry.bytes.now out.old filter.old start at }
{
    if place_at(out, at) == GLOBAL {
        add(filter, id_hash(text.bytes, out, at));
        return;
    }
    if !is_unmarked(out, at) {
        return;
    }
    let h = id_hash(text.bytes, out, at);
    if is_known(text, out, filter, start, at, h) {
        set_place(out, at, DROPPED);
        return;
    }
    add(filter, h);
    set_place(out, at, GLOBAL);
}

// Whether a record of a kind and a place can be a type's or has a mark: no other record gets a mark or joins the filter.
fn may_be_type(kind: u8, place: u8) -> bool
    ensures { MayBeType result kind place }
{
    place != 0 || matches!(kind, STRUCT | ENUM | BITMAP)
}

// Marks the record at an offset, and gives its kind. Most records are none of a type, which their first two bytes tell.
fn mark_at(text: Text, out: &mut [u8], filter: &mut Bits, start: usize, at: usize) -> u8
    requires { Marking text.bytes.now out.old filter.old start at }
    ensures marked_to { MarkedTo out.new filter.new text.entry.bytes.now out.old filter.old start at }
    ensures value { result ≡ value_at layout kind_field out.old at }
{
    let kind = kind_at(out, at);
    if !may_be_type(kind, place_at(out, at)) {
        return kind;
    }
    mark_record(text, out, filter, start, at);
    kind
}

// Marks the types of an item whose records are from start to end, after those of the items before.
pub fn mark_item(text: Text, out: &mut [u8], filter: &mut Bits, start: usize, end: usize)
    requires { Unhoisted text.bytes.now out.old filter.old start end }
    ensures { HoistedTo out.new filter.new text.entry.bytes.now out.old filter.old start end }
{
    let mut at = start;
    // Not a `for`: each step is as wide as its record says.
    while at < end {
        let kind = mark_at(text, out, filter, start, at);
        at += WORD * words_of(kind);
    }
}
