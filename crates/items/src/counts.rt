// The first pass: how many words the records of a declaration take.
ghost use Rattle.std.specs.Prelude.{◌≡◌, ◌+◌, ◌≤◌, max, length};
ghost use Rattle.items.specs.layout.{text_limit};
ghost use Rattle.items.specs.answers.{count_end};
ghost use Rattle.items.specs.inner.counts.{EndsIn, ClosedTo, lost_no_earlier, fail_no_earlier};

use lexing::answers::{Lost, LostBy};
use lexing::steps::tag_after;

// The end of a repetition after n words, at an offset: a try that fails ends it, and a stop goes on.
pub fn count_end<R: Copy>(l: LostBy<R>, n: usize, c: usize) -> Result<(usize, usize), LostBy<R>>
    ensures { result ≡ count_end l n c }
{
    match l {
        LostBy::Fail(_) => Ok((n, c)),
        LostBy::Stop(_, _) => Err(l),
    }
}

// A count between braces: after it are blanks and the closing brace.
pub fn closed<R: Copy>(
    part: &[u8],
    base: usize,
    run: Result<(usize, usize), LostBy<R>>,
) -> Result<(usize, usize), LostBy<R>>
    requires part_bound { base + length part.now ≤ text_limit }
    requires ends_in { EndsIn run base part.now }
    ensures { ClosedTo run result base part.now }
{
    let (n, c1) = run?;
    // A brace that is not there is a failure, whatever R is.
    match tag_after(part, base, c1, b'}') {
        Ok(c2) => Ok((n, c2)),
        Err(Lost::Fail(p)) => Err(LostBy::Fail(p)),
        Err(Lost::Stop(_, p)) => Err(LostBy::Fail(p)),
    }
}

// What is lost, its place no nearer than the furthest so far.
pub fn lost_no_earlier<R: Copy>(l: LostBy<R>, q: usize) -> LostBy<R>
    ensures { result ≡ lost_no_earlier l q }
{
    match l {
        LostBy::Fail(p) => LostBy::Fail(p.max(q)),
        LostBy::Stop(_, _) => l,
    }
}

// A count that is lost no earlier than at a place.
pub fn fail_no_earlier<R: Copy>(
    r: Result<(usize, usize), LostBy<R>>,
    place: usize,
) -> Result<(usize, usize), LostBy<R>>
    ensures { result ≡ fail_no_earlier r place }
{
    match r {
        Ok(_) => r,
        Err(l) => Err(lost_no_earlier(l, place)),
    }
}
