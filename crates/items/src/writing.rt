// The first words of a record, and what is before a declaration.
ghost use Rattle.std.specs.Prelude.{◌≡◌, ◌+◌, ◌≤◌, length, [], ◌∷◌};
ghost use Rattle.lexing.specs.word_sets.{bit};
ghost use Rattle.lexing.specs.buffers.{put, words_bytes};
ghost use Rattle.items.specs.layout.{text_limit};
ghost use Rattle.items.specs.answers.{Fits, first_of, word_of_span, DocFits, doc_span_word, doc_span_bit};

use crate::layout::{
    DOC_UNIT, FIRST_PRIVILEGE_UNIT, FLAGS_UNIT, KIND_UNIT, Kind, LENGTH_UNIT, MATURITY_UNIT,
    NAME_UNIT, PLACE_UNIT, SPAN_LENGTH_UNIT, SPAN_OFFSET_UNIT,
};
// Whoever builds a `First` names these.
pub use crate::levels::Privilege;
pub use crate::maturity::Maturity;
use lexing::blanks::DocSpan;
use lexing::buffers::put_words;

// What the first word of a record holds, from its top. The kind is any byte, as in a catalogue's words; the flags are seven bits. A record without a name, a maturity or a privilege has zeros there, as an empty name at 0, `stable` and `view` have.
#[derive(Clone, Copy)]
pub struct First {
    pub kind: u8,
    pub place: u8,
    pub maturity: Maturity,
    pub doc_present: u8,
    pub flags: u8,
    pub name: usize,
    pub name_length: usize,
    pub first_privilege: Privilege,
    pub second_privilege: Privilege,
}

// Where reading and writing are.
#[derive(Clone, Copy)]
pub struct Wrote {
    pub next: usize,
    pub to: usize,
}

pub fn first_word(f: First) -> u64
    requires { Fits f }
    ensures { result ≡ first_of f }
{
    u64::from(f.kind) * KIND_UNIT
        + u64::from(f.place) * PLACE_UNIT
        + u64::from(f.maturity.number()) * MATURITY_UNIT
        + u64::from(f.doc_present) * DOC_UNIT
        + u64::from(f.flags) * FLAGS_UNIT
        + f.name as u64 * NAME_UNIT
        + f.name_length as u64 * LENGTH_UNIT
        + u64::from(f.first_privilege.number()) * FIRST_PRIVILEGE_UNIT
        + u64::from(f.second_privilege.number())
}

// What is before a declaration, and its record's kind and place.
#[derive(Clone, Copy)]
pub struct FrontParts {
    pub kind: Kind,
    pub place: u8,
    pub doc: Option<DocSpan>,
    pub maturity: Maturity,
}

// A span: its offset and its length in twenty bits each from the top.
pub fn span_word(offset: usize, size: usize) -> u64
    requires offset_le_text_limit { offset ≤ text_limit }
    requires size_le_text_limit { size ≤ text_limit }
    ensures { result ≡ word_of_span offset size }
{
    offset as u64 * SPAN_OFFSET_UNIT + size as u64 * SPAN_LENGTH_UNIT
}

pub fn doc_word(doc: Option<DocSpan>) -> u64
    requires { DocFits doc }
    ensures { result ≡ doc_span_word doc }
{
    match doc {
        None => 0,
        Some(d) => span_word(d.offset, d.size),
    }
}

// Whether there is a doc comment.
pub fn doc_bit(doc: Option<DocSpan>) -> u8
    ensures { result ≡ doc_span_bit doc }
{
    match doc {
        None => 0,
        Some(_) => 1,
    }
}

// A flag as a bit.
pub fn flag(b: bool) -> u8
    ensures { result ≡ bit b }
{
    u8::from(b)
}

// The first two words of a record that can have a doc comment: its own, and the doc comment's span.
pub fn put_documented(out: &mut [u8], at: usize, first: First, doc: Option<DocSpan>)
    requires at_in_bounds { at + 16 ≤ length out.old }
    requires fits { Fits first }
    requires doc_fits { DocFits doc }
    ensures { out.new ≡ put at (words_bytes (first_of first ∷ doc_span_word doc ∷ [])) out.old }
{
    put_words(out, at, [first_word(first), doc_word(doc)]);
}
