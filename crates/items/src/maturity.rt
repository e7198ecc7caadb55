// Maturities.
ghost use Rattle.std.specs.Prelude.{◌≡◌, true, ◌+◌, ◌≤◌, ◌<◌, length};
ghost use Rattle.lexing.specs.bytes.{lower};
ghost use Rattle.lexing.specs.words.{is_key};
ghost use Rattle.lexing.specs.integers.{u64_max};
ghost use Rattle.items.specs.entries.{api_maturity};
ghost use Rattle.items.specs.answers.{MaturityTo, maturity_number, maturity_blank, maturity_between};
ghost use Rattle.items.specs.inner.maturity.{is_initial, MaturityBy};

use lexing::bytes::lower_of;
use lexing::parts::{peek, rest_at};
use lexing::steps::blank_at;
use lexing::words::keyword;

// How settled a declaration, an entry or a field is.
#[derive(Clone, Copy, PartialEq, Eq)]
pub enum Maturity {
    Stable = 0,
    Provisional = 1,
    Internal = 2,
    Deprecated = 3,
}

impl Maturity {
    pub fn number(self) -> u8
        ensures value { result ≡ maturity_number self }
        ensures upper_bound { result < 4 }
    {
        self as u8
    }
}

// The maturity that a keyword says, and the offset after it.
fn maturity_by(part: &[u8], base: usize, key: &[u8], said: Maturity) -> (Maturity, usize)
    requires part_bound { base + length part.now ≤ u64_max }
    requires key_value { is_key key.now ≡ true }
    ensures { MaturityBy key.now said result base part.now }
{
    let Ok(next) = keyword(part, base, key) else {
        return (Maturity::Stable, base);
    };
    (said, next)
}

// A maturity is always there: where no word says one, it is stable and nothing is read. The first letter selects one keyword.
pub fn api_maturity(part: &[u8], base: usize) -> (Maturity, usize)
    requires { base + length part.now ≤ u64_max }
    ensures { MaturityTo api_maturity result base part.now }
{
    let x = lower_of(peek(part, 0));
    match x {
        b's' => maturity_by(part, base, b"stable", Maturity::Stable),
        b'p' => maturity_by(part, base, b"provisional", Maturity::Provisional),
        b'i' => maturity_by(part, base, b"internal", Maturity::Internal),
        b'd' => maturity_by(part, base, b"deprecated", Maturity::Deprecated),
        _ => (Maturity::Stable, base),
    }
}

// Whether a maturity begins with a letter.
fn is_initial(x: u8) -> bool
    ensures { result ≡ is_initial (lower x) }
{
    // the small letter of a letter, and no letter else
    let y = x | 0x20;
    match y {
        b's' => true,
        b'p' => true,
        b'i' => true,
        b'd' => true,
        _ => false,
    }
}

// A maturity and the blanks after it: what is left after the short front of `maturity_between`.
pub fn maturity_blank(part: &[u8], base: usize) -> (Maturity, usize)
    requires { base + length part.now ≤ u64_max }
    ensures { MaturityTo maturity_blank result base part.now }
{
    let part = &part[..];
    let (maturity, c) = api_maturity(part, base);
    let next = blank_at(part, base, c);
    (maturity, next)
}

// A maturity and the blanks around it. Where there is none, as mostly, the blanks before it are all.
pub fn maturity_between(part: &[u8], base: usize) -> (Maturity, usize)
    requires { base + length part.now ≤ u64_max }
    ensures { MaturityTo maturity_between result base part.now }
{
    let c1 = blank_at(part, base, base);
    if !is_initial(peek(part, c1 - base)) {
        return (Maturity::Stable, c1);
    }
    maturity_blank(rest_at(part, base, c1), c1)
}
