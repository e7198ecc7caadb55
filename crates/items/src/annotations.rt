// The annotations of entries: a key and a string each, in brackets.
ghost use Rattle.std.specs.Prelude.{◌≡◌, [], ◌∷◌, map, ◌+◌, ◌*◌, ◌≤◌, ◌<◌, length};
ghost use Rattle.lexing.specs.reply.{opt, many0};
ghost use Rattle.lexing.specs.words.{tag};
ghost use Rattle.lexing.specs.buffers.{put};
ghost use Rattle.lexing.specs.answers.{Skips};
ghost use Rattle.items.specs.entries.{Annotation, constant_annotation, blank_annotation, annotations_in_brackets, constant_annotations_list};
ghost use Rattle.items.specs.records.{annotation_record, annotation_kind};
ghost use Rattle.items.specs.layout.{layout, catalogue_bytes, word_count, text_limit};
ghost use Rattle.items.specs.answers.{CountTo, Room, Written};
ghost use Rattle.items.specs.inner.annotations.{annotation_at, AnnotationTo, AnnotationBetween, optional_records, annotations_at, annotation_parts};
ghost use Rattle.items.specs.inner.writing.{room_for};

use crate::counts::count_end;
use crate::layout::{ANNOTATION, ANNOTATION_WORDS};
use crate::levels::Privilege;
use crate::maturity::Maturity;
use crate::runs::{Element, count_run, write_run};
use crate::writing::{First, Wrote, first_word, span_word};
use lexing::answers::{Read, Step, optional};
use lexing::buffers::put_words;
use lexing::names::blank_word;
use lexing::parts::rest_at;
use lexing::steps::{blank_at, tag_after};
use lexing::strings::quoted_string;
use lexing::words::tag;

// An annotation: the offsets of its key, of the quote before its value, after its key and after the quote that ends its value.
#[derive(Clone, Copy)]
pub struct AnnotationParts {
    pub key: usize,
    pub quote: usize,
    pub end: usize,
    pub after: usize,
}

fn optional_comma(part: &[u8], base: usize) -> Step
    requires { base + length part.now ≤ text_limit }
    ensures { Skips (opt (tag 44)) result base part.now }
{
    optional(tag(part, base, b','), base)
}

// An annotation (`read` is the Rust's `constant_annotation`) reads the blanks before it itself, and takes two words.
impl Element for AnnotationParts {
    ghost Value = { Annotation };

    ghost stands = { annotation_at };

    ghost reads = { blank_annotation };

    ghost records = { λ a. annotation_record a ∷ [] };

    ghost all = { map annotation_record };

    ghost Bounds = { λ u. AnnotationBetween };

    ghost size = { λ a. 2 };

    fn read(part: &[u8], base: usize) -> Read<AnnotationParts> {
        let (key, c1) = blank_word(part, base, base)?;
        let c2 = tag_after(part, base, c1, b'=')?;
        let quote = blank_at(part, base, c2);
        let after = quoted_string(rest_at(part, base, quote), quote)?;
        let c3 = blank_at(part, base, after);
        let c4 = optional_comma(rest_at(part, base, c3), c3)?;
        let a = AnnotationParts {
            key: key.start,
            quote,
            end: key.end,
            after,
        };
        Ok((a, c4))
    }

    fn words(&self) -> usize {
        ANNOTATION_WORDS
    }

    fn write(self, _part: &[u8], _base: usize, out: &mut [u8], at: usize) {
        put_annotation(out, at, self);
    }
}

fn count_annotations_in_brackets(part: &[u8], base: usize) -> Read<usize>
    requires { base + length part.now ≤ text_limit }
    ensures { CountTo (map annotation_record) annotations_in_brackets result base part.now }
{
    let c1 = tag(part, base, b'[')?;
    let (n, c2) = count_run::<AnnotationParts>(rest_at(part, base, c1), c1)?;
    let c3 = tag_after(part, base, c2, b']')?;
    Ok((n, c3))
}

// A list that fails is given up: it counts nothing, and reading goes on before it.
pub fn count_annotations_list(part: &[u8], base: usize) -> Read<usize>
    requires { base + length part.now ≤ text_limit }
    ensures { CountTo optional_records constant_annotations_list result base part.now }
{
    let r = count_annotations_in_brackets(part, base);
    match r {
        Ok(_) => r,
        Err(l) => count_end(l, 0, base),
    }
}

// The two words of an annotation's record.
fn put_annotation(out: &mut [u8], at: usize, a: AnnotationParts)
    requires annotation_kind_in_bounds { at + room_for annotation_kind ≤ length out.old }
    requires annotation_between { AnnotationBetween 0 a text_limit }
    ensures { out.new ≡ put at (catalogue_bytes layout (annotation_parts a ∷ [])) out.old }
{
    let first = First {
        kind: ANNOTATION,
        place: 0,
        maturity: Maturity::Stable,
        doc_present: 0,
        flags: 0,
        name: a.key,
        name_length: a.end - a.key,
        first_privilege: Privilege::View,
        second_privilege: Privilege::View,
    };
    let start = a.quote + 1;
    let value = span_word(start, a.after - 1 - start);
    put_words(out, at, [first_word(first), value]);
}

// The second pass over the annotations after the code of an entry, which has some: those between the brackets are written as they are read.
pub fn write_entry_annotations(part: &[u8], base: usize, out: &mut [u8], at: usize)
    requires part_bound { base + length part.now ≤ text_limit }
    requires nonzero { 0 < word_count layout (map annotation_record (annotations_at base part.now)) }
    requires part_in_bounds { at + 8 * word_count layout (map annotation_record (annotations_at base part.now)) ≤ length out.old }
    ensures { out.new ≡ put at (catalogue_bytes layout (map annotation_record (annotations_at base part.now))) out.old }
{
    let c1 = blank_at(part, base, base);
    let Ok(c2) = tag(rest_at(part, base, c1), c1, b'[') else {
        return;
    };
    write_run::<AnnotationParts>(rest_at(part, base, c2), c2, out, at);
}
