// Repetitions: both passes over elements, one after the other, and over those between braces.
ghost use Rattle.std.specs.Prelude.{◌≡◌, ℕ, ◌+◌, ◌*◌, ◌≤◌, List, length};
ghost use Rattle.lexing.specs.reply.{Parser, many0};
ghost use Rattle.lexing.specs.buffers.{put};
ghost use Rattle.lexing.specs.answers.{ReadTo};
ghost use Rattle.items.specs.layout.{text_limit, layout, catalogue_bytes};
ghost use Rattle.items.specs.records.{Record};
ghost use Rattle.items.specs.entries.{braces};
ghost use Rattle.items.specs.answers.{CountTo, Room, Written};
ghost use Rattle.items.specs.inner.runs.{Repeats, ReadInside};

use crate::counts::{closed, count_end};
use crate::layout::WORD;
use crate::writing::Wrote;
use lexing::answers::Read;
use lexing::parts::rest_at;
use lexing::steps::tag_after;
use lexing::words::tag;

// An element of a repetition, as its reader answers it.
pub trait Element: Copy {
    // What it stands for in a part, how that is read, and the records of one and of a list of them.
    ghost Value: { Type 0 };

    ghost stands: { ℕ → List ℕ → Self → Value };

    ghost reads: { Parser Value };

    ghost records: { Value → List Record };

    ghost all: { List Value → List Record };

    // What bounds it where it was read from an offset to another, and the words of its records.
    ghost Bounds: { List ℕ → ℕ → Self → ℕ → Type 0 };

    ghost size: { Self → ℕ };

    fn read(part: &[u8], base: usize) -> Read<Self>
        requires { base + length part.now ≤ text_limit }
        ensures { ReadTo stands (Bounds part.now) reads result base part.now };

    fn words(&self) -> usize
        requires { size self.now ≤ 8 * text_limit }
        ensures { result ≡ size self.now };

    // Its records, in the part where it was read.
    fn write(self, part: &[u8], base: usize, out: &mut [u8], at: usize)
        requires part_bound { base + length part.now ≤ text_limit }
        requires bounds { ReadInside (Bounds part.now base self) (base + length part.now) }
        requires in_bounds { at + 8 * size self ≤ length out.old }
        ensures { out.new ≡ put at (catalogue_bytes layout (records (stands base part.now self))) out.old };
}

// The first pass over a repetition.
pub fn count_run<E: Element>(part: &[u8], base: usize) -> Read<usize>
    requires part_bound { base + length part.now ≤ text_limit }
    requires repeats { Repeats E.all E.records E.reads E.stands E.Bounds E.size }
    ensures { CountTo E.all (many0 E.reads) result base part.now }
{
    let mut c = base;
    let mut n = 0;
    loop {
        match E::read(rest_at(part, base, c), c) {
            Ok((e, next)) => {
                c = next;
                n += e.words();
            }
            Err(l) => return count_end(l, n, c),
        }
    }
}

// The first pass over a repetition between braces.
pub fn count_braced<E: Element>(part: &[u8], base: usize) -> Read<usize>
    requires part_bound { base + length part.now ≤ text_limit }
    requires repeats { Repeats E.all E.records E.reads E.stands E.Bounds E.size }
    ensures { CountTo E.all (braces (many0 E.reads)) result base part.now }
{
    let c = tag(part, base, b'{')?;
    let run = count_run::<E>(rest_at(part, base, c), c);
    closed(part, base, run)
}

// The second pass over a repetition.
pub fn write_run<E: Element>(part: &[u8], base: usize, out: &mut [u8], at: usize) -> Wrote
    requires part_bound { base + length part.now ≤ text_limit }
    requires repeats { Repeats E.all E.records E.reads E.stands E.Bounds E.size }
    requires room { Room E.all (many0 E.reads) base part.now at (length out.old) }
    ensures { Written E.all (many0 E.reads) base part.now at result out.old out.new }
{
    let mut c = base;
    let mut to = at;
    loop {
        let rest = rest_at(part, base, c);
        let Ok((e, next)) = E::read(rest, c) else {
            return Wrote { next: c, to };
        };
        let words = e.words();
        e.write(rest, c, out, to);
        c = next;
        to += WORD * words;
    }
}

// The second pass over a repetition between braces.
pub fn write_braced<E: Element>(part: &[u8], base: usize, out: &mut [u8], at: usize) -> Wrote
    requires part_bound { base + length part.now ≤ text_limit }
    requires repeats { Repeats E.all E.records E.reads E.stands E.Bounds E.size }
    requires room { Room E.all (braces (many0 E.reads)) base part.now at (length out.old) }
    ensures { Written E.all (braces (many0 E.reads)) base part.now at result out.old out.new }
{
    let nothing = Wrote { next: base, to: at };
    let Ok(c1) = tag(part, base, b'{') else {
        return nothing;
    };
    let run = write_run::<E>(rest_at(part, base, c1), c1, out, at);
    let Ok(c2) = tag_after(part, base, run.next, b'}') else {
        return nothing;
    };
    Wrote {
        next: c2,
        to: run.to,
    }
}
