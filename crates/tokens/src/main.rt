// Known answers of the tokens: each line of standard input is the letter of a reader, a space and a text; the line comes back with the
// reader's answer. In a text `\n`, `\t`, `\\` and `\"` stand for LF, TAB, backslash and quote.
#![tactic(auto)]

ghost use Rattle.std.specs.Prelude.{◌+◌, ◌≤◌, length};
ghost use Rattle.lexing.specs.integers.{u64_max};

use lexing::answers::{Lost, Read, Step};
use lexing::blanks::Blank;
use lexing::integers::SignedParts;
use lexing::unescaping::UnescapeError;
use lexing::word_sets::{KeywordSet, WordSet, keywords_set};
use std::io;

fn print_number(out: &impl Print, label: &[u8], n: usize) -> io::Result<()> {
    out.write_all(label)?;
    print!(out; "{n}")
}

fn print_lost(out: &impl Print, l: Lost) -> io::Result<()> {
    match l {
        Lost::Fail(place) => print_number(out, b" fail ", place),
        Lost::Stop(refusal, place) => {
            print_number(out, b" stop ", refusal.number())?;
            print_number(out, b" at ", place)
        }
    }
}

fn print_step(out: &impl Print, r: Step) -> io::Result<()> {
    match r {
        Ok(c) => print_number(out, b" next ", c),
        Err(l) => print_lost(out, l),
    }
}

fn print_blank(out: &impl Print, b: Blank) -> io::Result<()> {
    print_number(out, b" next ", b.next)?;
    match b.doc {
        None => Ok(()),
        Some(doc) => {
            print_number(out, b" doc ", doc.offset)?;
            print_number(out, b" length ", doc.size)
        }
    }
}

fn print_gap(out: &impl Print, r: Result<Blank, Lost>) -> io::Result<()> {
    match r {
        Ok(b) => print_blank(out, b),
        Err(l) => print_lost(out, l),
    }
}

fn print_integer(out: &impl Print, r: Read<u64>) -> io::Result<()> {
    match r {
        Ok((v, c)) => {
            print!(out; " value {v}")?;
            print_number(out, b" next ", c)
        }
        Err(l) => print_lost(out, l),
    }
}

fn print_signed(out: &impl Print, r: Read<SignedParts>) -> io::Result<()> {
    match r {
        Ok((signed, c)) => {
            if signed.negative {
                out.write_all(b" minus ")?;
            } else {
                out.write_all(b" plus ")?;
            }
            let v = signed.magnitude;
            print!(out; "{v}")?;
            print_number(out, b" next ", c)
        }
        Err(l) => print_lost(out, l),
    }
}

fn print_utf8(out: &impl Print, r: Option<usize>) -> io::Result<()> {
    match r {
        None => out.write_all(b" well-formed"),
        Some(p) => print_number(out, b" ill-formed at ", p),
    }
}

fn print_set(out: &impl Print, r: WordSet) -> io::Result<()> {
    print_number(out, b" flags ", usize::from(r.flags))?;
    print_number(out, b" next ", r.next)
}

// Into eight bytes of output.
fn print_unescaped(out: &impl Print, text: &[u8]) -> io::Result<()> {
    let mut output = [b'.'; 8];
    match lexing::unescaping::unescape(text, &mut output) {
        Ok(n) => print_number(out, b" written ", n)?,
        Err(UnescapeError::Fault(p)) => print_number(out, b" fault ", p)?,
        Err(UnescapeError::Short(n)) => print_number(out, b" short ", n)?,
    }
    out.write_all(b" <")?;
    out.write_all(&output)?;
    out.write_all(b">")
}

// What the reader of a letter answers; the part starts at an offset.
fn print_answer(out: &impl Print, reader: u8, part: &[u8], base: usize) -> io::Result<()>
    requires { base + length part.now ≤ u64_max }
{
    match reader {
        b'b' => print_blank(out, lexing::blanks::whitespace0(part, base)),
        b'g' => print_gap(out, lexing::blanks::whitespace1(part, base)),
        b'w' => print_step(out, lexing::words::parse_id(part, base)),
        b'k' => print_step(out, lexing::words::keyword(part, base, b"enum")),
        b't' => print_step(out, lexing::words::tag(part, base, b'=')),
        b'i' => print_integer(out, lexing::integers::positive_integer(part, base)),
        b's' => print_signed(out, lexing::integers::signed_integer(part, base)),
        b'a' => print_step(out, lexing::strings::quoted_string(part, base)),
        b'd' => print_step(out, lexing::strings::default_string(part, base)),
        b'u' => print_utf8(out, lexing::utf8::utf8_error(part, base)),
        b'0' => print_set(out, keywords_set(part, base, KeywordSet::Field)),
        b'1' => print_set(out, keywords_set(part, base, KeywordSet::Struct)),
        b'2' => print_set(out, keywords_set(part, base, KeywordSet::Event)),
        b'3' => print_set(out, keywords_set(part, base, KeywordSet::Command)),
        b'4' => print_set(out, keywords_set(part, base, KeywordSet::Attribute)),
        _ => out.write_all(b" no such reader"),
    }
}

// A letter from A to Z hands the reader the part after the text's first three bytes.
fn print_part(out: &impl Print, letter: u8, text: &[u8]) -> io::Result<()> {
    if letter.is_ascii_uppercase() && 3 <= text.len() {
        return print_answer(out, letter.to_ascii_lowercase(), &text[3..], 3);
    }
    print_answer(out, letter, text, 0)
}

// A line without its line feed.
fn print_line(out: &impl Print, line: &[u8]) -> io::Result<()> {
    let mut text = [0u8; 256];
    out.write_all(line)?;
    out.write_all(b" ->")?;
    let letter = lexing::parts::peek(line, 0);
    let raw = lexing::parts::after(line, 2);
    if letter == b'e' {
        print_unescaped(out, raw)?;
        return out.write_all(b"\n");
    }
    let Ok(n) = lexing::unescaping::unescape(raw, &mut text) else {
        return out.write_all(b" no text\n");
    };
    print_part(out, letter, lines::front(&text, n))?;
    out.write_all(b"\n")
}

fn print_lines(out: &impl Print, lines: &[u8]) -> io::Result<()> {
    for line in lines.split_inclusive(|byte| *byte == b'\n') {
        print_line(out, line.strip_suffix(b"\n").unwrap_or(line))?;
    }
    Ok(())
}

fn main(rt: HostRuntime) -> io::Result<()> {
    let mut input = [0u8; 16384];
    let n = lines::read_full(&mut rt.stdin(), &mut input);
    print_lines(&rt.stdout(), &input[..n])
}
