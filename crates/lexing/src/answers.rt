// What readers answer.
ghost use Rattle.std.specs.Prelude.{◌≡◌};
ghost use Rattle.lexing.specs.answers.{number_of, step_lost, value_lost, optional_step};

// Why a text, or a call, is refused, by the numbers of document 01.
#[derive(Clone, Copy, PartialEq, Eq)]
pub enum Refusal {
    TextTooLong = 1,
    NotUtf8 = 2,
    NoItem = 3,
    NumberTooLarge = 4,
    EscapedReturn = 5,
    AccessNotLower = 6,
    CatalogueTooShort = 7,
    ReportTooShort = 8,
    BadEscape = 9,
    OutputTooShort = 10,
}

impl Refusal {
    pub fn number(self) -> usize
        ensures { result ≡ number_of self }
    {
        self as usize
    }
}

// Why there is no token: a failure at a place, which another try may follow, or what ends all reading, and where. R says what that is; what hands it
// on takes any R.
#[derive(Clone, Copy)]
pub enum LostBy<R> {
    Fail(usize),
    Stop(R, usize),
}

// What the readers lose: a refusal ends all reading.
pub type Lost = LostBy<Refusal>;

// A value and the offset after it.
pub type Read<T> = Result<(T, usize), Lost>;

// The offset after a token.
pub type Step = Result<usize, Lost>;

// What an answer has lost; where its token is there, a failure after it.
pub fn step_lost<R: Copy>(r: Result<usize, LostBy<R>>) -> LostBy<R>
    ensures { result ≡ step_lost r }
{
    match r {
        Ok(c) => LostBy::Fail(c),
        Err(l) => l,
    }
}

// The same of an answer with a value.
pub fn value_lost<T: Copy, R: Copy>(r: Result<(T, usize), LostBy<R>>) -> LostBy<R>
    ensures { result ≡ value_lost r }
{
    match r {
        Ok((_, c)) => LostBy::Fail(c),
        Err(l) => l,
    }
}

// The answer of an optional part that is at an offset: where it fails nothing is read, and a stop goes on.
pub fn optional<R: Copy>(r: Result<usize, LostBy<R>>, base: usize) -> Result<usize, LostBy<R>>
    ensures { result ≡ optional_step r base }
{
    match r {
        Err(LostBy::Fail(_)) => Ok(base),
        _ => r,
    }
}
