// The survey of a text: each section is read alone, with offsets of the whole text.
ghost use Rattle.std.specs.Prelude.{◌≡◌, [], ◌∷◌, ◌+◌, ◌*◌, ◌^◌, ◌≤◌, ◌<◌, length};
ghost use Rattle.items.specs.layout.{layout, catalogue_bytes, text_limit, word_count};
ghost use Rattle.lexing.specs.buffers.{put};
ghost use Rattle.matter_idl.specs.hoisting.{no_ids, hoisted};
ghost use Rattle.matter_idl.specs.sections.{sections};
ghost use Rattle.matter_idl.specs.reading.{verdict_at};
ghost use Rattle.matter_idl.specs.survey.{number_width, items_of, accepted_items, report_entries, report_layout, report_bytes};
ghost use Rattle.matter_idl.specs.inner.reading.{PartOf, HoistedFront};
ghost use Rattle.matter_idl.specs.inner.survey.{entry_word, verdict_word, entry_of, PlaceFits, words_of, AcceptedBits, Remembered, accepted_alone, Judged, SectionAfterTo};

use crate::bits::Bits;
use crate::reading::{Verdict, verdict_at, write_items};
use crate::sections::{first_section, section_at};
use crate::text::Text;
use items::layout::{OFFSETS, WORD};
use lexing::buffers::put_word;
use lexing::parts::rest_at;

// The bytes of an entry of the report: one word. In it are, from the top, a start, a length, a number and a place.
pub const ENTRY_SIZE: usize = WORD;

const START_UNIT: u64 = LENGTH_UNIT * OFFSETS as u64;

const LENGTH_UNIT: u64 = NUMBER_UNIT * 16;

const NUMBER_UNIT: u64 = OFFSETS as u64;

fn entry_word(start: usize, size: usize, number: usize, place: usize) -> u64
    requires start_le_text_limit { start ≤ text_limit }
    requires size_le_text_limit { size ≤ text_limit }
    requires number_bound { number < 2 ^ number_width }
    requires place_le_text_limit { place ≤ text_limit }
    ensures { result ≡ entry_word start size number place }
{
    start as u64 * START_UNIT
        + size as u64 * LENGTH_UNIT
        + number as u64 * NUMBER_UNIT
        + place as u64
}

fn verdict_word(start: usize, size: usize, v: Verdict) -> u64
    requires start_le_text_limit { start ≤ text_limit }
    requires size_le_text_limit { size ≤ text_limit }
    requires place_fits { PlaceFits v }
    ensures { result ≡ verdict_word start size v }
{
    match v {
        Ok(_) => entry_word(start, size, 0, 0),
        Err(r) => entry_word(start, size, r.refusal.number(), r.value),
    }
}

// The report's entry of a section.
fn put_entry(report: &mut [u8], at: usize, start: usize, size: usize, v: Verdict)
    requires at_in_bounds { at + 8 ≤ length report.old }
    requires start_le_text_limit { start ≤ text_limit }
    requires size_le_text_limit { size ≤ text_limit }
    requires place_fits { PlaceFits v }
    ensures { report.new ≡ put at (report_bytes report_layout (entry_of start size v ∷ [])) report.old }
{
    put_word(report, at, verdict_word(start, size, v));
}

// A refused section has no words.
fn accepted_words(v: Verdict) -> usize
    ensures { result ≡ words_of v }
{
    v.unwrap_or(0)
}

// Sets the bit of section i, if it is accepted.
fn remember(accepted_bits: &mut Bits, i: usize, v: Verdict)
    requires { i < 2 ^ 19 }
    ensures { Remembered accepted_bits.new accepted_bits.old i v }
{
    if v.is_ok() {
        accepted_bits.set(i);
    }
}

// What the first pass counts: the sections, and the words of the accepted ones.
#[derive(Clone, Copy)]
pub struct Counted {
    pub sections: usize,
    pub words: usize,
}

// The first pass over the sections of a text, with a bit for each that is accepted.
pub fn count_accepted(text: Text, accepted_bits: &mut Bits) -> Counted
    requires { AcceptedBits accepted_bits.old [] }
    ensures sections_value { result.sections ≡ length (sections text.entry.bytes.now) }
    ensures sections_bound { result.sections ≤ 1 + length text.entry.bytes.now }
    ensures words_value { result.words ≡ word_count layout (hoisted no_ids (accepted_items 0 (sections text.entry.bytes.now))) }
    ensures words_bound { result.words ≤ 8 * length text.entry.bytes.now }
    ensures accepted_bits { AcceptedBits accepted_bits.new (report_entries 0 (sections text.entry.bytes.now)) }
{
    let mut i = 0;
    let mut start = 0;
    let mut n = 0;
    // Not a `for`: how many sections there are is what it counts.
    loop {
        let s = first_section(rest_at(text.bytes, 0, start), start);
        let end = s.end;
        let v = verdict_at(section_at(text.bytes, start, end), start);
        remember(accepted_bits, i, v);
        n += accepted_words(v);
        i += 1;
        if s.last {
            return Counted {
                sections: i,
                words: n,
            };
        }
        start = end;
    }
}

// The verdict on a section: a refused one is judged once more, for its number and place.
fn verdict_again(part: &[u8], base: usize, accepted: bool) -> Verdict
    requires part_bound { base + length part.now ≤ text_limit }
    requires accepted_value { accepted ≡ accepted_alone base part.now }
    ensures { Judged result base part.now }
{
    if accepted {
        return Ok(0);
    }
    verdict_at(part, base)
}

// The records of a section, if it is accepted, after those before it.
fn write_accepted(
    text: Text,
    part: &[u8],
    base: usize,
    accepted: bool,
    catalogue: &mut [u8],
    filter: &mut Bits,
    to: usize,
) -> usize
    requires part_of { PartOf text.bytes.now base part.now }
    requires accepted_value { accepted ≡ accepted_alone base part.now }
    requires part_in_bounds { to + 8 * word_count layout (hoisted no_ids (items_of (verdict_at base part.now))) ≤ length catalogue.old }
    requires hoisted_front { HoistedFront text.bytes.now catalogue.old filter.old to }
    ensures { SectionAfterTo catalogue.new filter.new text.entry.bytes.now catalogue.old filter.old to base part.now result }
{
    if accepted {
        let wrote = write_items(text, part, base, catalogue, filter, to);
        return wrote.to;
    }
    to
}

// The second pass: each section's entry, and its records if it is accepted.
pub fn write_sections(
    text: Text,
    m: usize,
    accepted_bits: &Bits,
    catalogue: &mut [u8],
    filter: &mut Bits,
    report: &mut [u8],
)
    requires m_value { m ≡ length (sections text.bytes.now) }
    requires accepted_bits { AcceptedBits accepted_bits.now (report_entries 0 (sections text.bytes.now)) }
    requires text_in_bounds { 8 * word_count layout (hoisted no_ids (accepted_items 0 (sections text.bytes.now))) ≤ length catalogue.old }
    requires m_in_bounds { 8 * m ≤ length report.old }
    ensures catalogue_after { catalogue.new ≡ put 0 (catalogue_bytes layout (hoisted no_ids (accepted_items 0 (sections text.entry.bytes.now)))) catalogue.old }
    ensures report_after { report.new ≡ put 0 (report_bytes report_layout (report_entries 0 (sections text.entry.bytes.now))) report.old }
{
    let mut start = 0;
    let mut to = 0;
    for i in 0..m {
        let s = first_section(rest_at(text.bytes, 0, start), start);
        let end = s.end;
        let part = section_at(text.bytes, start, end);
        let accepted = accepted_bits.has(i);
        let v = verdict_again(part, start, accepted);
        put_entry(report, ENTRY_SIZE * i, start, end - start, v);
        to = write_accepted(text, part, start, accepted, catalogue, filter, to);
        start = end;
    }
}
