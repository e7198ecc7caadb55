// Reading a text: the first pass counts the words of its items' records, the second writes them.
ghost use Rattle.std.specs.Prelude.{◌+◌, ◌≤◌, length, ◌≡◌};
ghost use Rattle.items.specs.layout.{text_limit};
ghost use Rattle.lexing.specs.buffers.{each};
ghost use Rattle.items.specs.answers.{CountTo, Room};
ghost use Rattle.items.specs.answers.items.{unhoisted_item};
ghost use Rattle.matter_idl.specs.reading.{all_items};
ghost use Rattle.matter_idl.specs.answers.reading.{refused_by, VerdictAtTo, VerdictTo};
ghost use Rattle.matter_idl.specs.inner.reading.{PartOf, HoistedFront, HoistedItemsTo};

use crate::bits::Bits;
use crate::hoisting::mark_item;
use crate::text::Text;
use items::items::{count_declaration, write_declaration};
use items::layout::TEXT_LIMIT;
use items::writing::Wrote;
use lexing::answers::{Lost, Read, Refusal};
use lexing::blanks::whitespace0;
use lexing::parts::rest_at;
use lexing::utf8::utf8_error;

// Why a text is refused, and the value that goes with it.
#[derive(Clone, Copy)]
pub struct Refused {
    pub refusal: Refusal,
    pub value: usize,
}

// What is lost refuses the text, at its place.
impl From<Lost> for Refused {
    ghost from_gives = { λ l r. r ≡ refused_by l };

    fn from(l: Lost) -> Refused {
        match l {
            Lost::Fail(value) => Refused {
                refusal: Refusal::NoItem,
                value,
            },
            Lost::Stop(refusal, value) => Refused { refusal, value },
        }
    }
}

// What a text comes to: the words of its catalogue, or why it is refused.
pub type Verdict = Result<usize, Refused>;

// The first pass over all items of a part: blanks and a declaration, until the part ends.
pub fn count_items(part: &[u8], base: usize) -> Read<usize>
    requires { base + length part.now ≤ text_limit }
    ensures { CountTo (each unhoisted_item) all_items result base part.now }
{
    let end = base + part.len();
    let mut c = base;
    let mut n = 0;
    loop {
        let w = whitespace0(rest_at(part, base, c), c);
        let start = w.next;
        if start == end {
            return Ok((n, start));
        }
        let (k, next) = count_declaration(rest_at(part, base, start), start)?;
        c = next;
        n += k;
    }
}

// UTF-8, then the first pass.
pub fn verdict_at(part: &[u8], base: usize) -> Verdict
    requires { base + length part.now ≤ text_limit }
    ensures { VerdictAtTo result base part.now }
{
    if let Some(value) = utf8_error(part, base) {
        return Err(Refused {
            refusal: Refusal::NotUtf8,
            value,
        });
    }
    let (n, _) = count_items(part, base)?;
    Ok(n)
}

// The limit before them, for a whole text.
pub fn verdict_on(text: &[u8]) -> Verdict
    ensures { VerdictTo result text.now }
{
    if TEXT_LIMIT < text.len() {
        return Err(Refused {
            refusal: Refusal::TextTooLong,
            value: TEXT_LIMIT,
        });
    }
    verdict_at(text, 0)
}

// The second pass over all items of a part of the text, after the records of earlier items: each item's records are marked as soon as they are written.
pub fn write_items(
    text: Text,
    part: &[u8],
    base: usize,
    out: &mut [u8],
    filter: &mut Bits,
    at: usize,
) -> Wrote
    requires part_of { PartOf text.bytes.now base part.now }
    requires room { Room (each unhoisted_item) all_items base part.now at (length out.old) }
    requires hoisted_front { HoistedFront text.bytes.now out.old filter.old at }
    ensures { HoistedItemsTo out.new filter.new text.entry.bytes.now out.old filter.old at base part.now result }
{
    let end = base + part.len();
    let mut c = base;
    let mut to = at;
    loop {
        let w = whitespace0(rest_at(part, base, c), c);
        let start = w.next;
        if start == end {
            return Wrote { next: start, to };
        }
        let doc = w.doc;
        let wrote = write_declaration(rest_at(part, base, start), start, doc, out, to);
        mark_item(text, out, filter, to, wrote.to);
        c = wrote.next;
        to = wrote.to;
    }
}
