// Known answers of declarations: each line of standard input is a text; the line comes back with the answer for the item at its start. An item that is read comes back
// with its records, one word after the other, and the offset after it. In a text `\n`, `\t`, `\\` and `\"` stand for LF, TAB, backslash and quote.
#![tactic(auto)]

ghost use Rattle.std.specs.Prelude.{◌≤◌, length};
ghost use Rattle.items.specs.layout.{text_limit};

use lexing::answers::Lost;
use std::io;

fn print_number(out: &impl Print, label: &[u8], n: usize) -> io::Result<()> {
    out.write_all(label)?;
    print!(out; "{n}")
}

// A failure is document 01's refusal 3; a stop has its number.
fn print_lost(out: &impl Print, l: Lost) -> io::Result<()> {
    match l {
        Lost::Fail(place) => print_number(out, b" refused 3 ", place),
        Lost::Stop(refusal, place) => {
            print_number(out, b" refused ", refusal.number())?;
            print_number(out, b" ", place)
        }
    }
}

// Eight bytes make a word.
fn print_words(out: &impl Print, bytes: &[u8]) -> io::Result<()> {
    for word in bytes.chunks(8) {
        out.write_all(b" ")?;
        for byte in word {
            print!(out; "{byte:02x}")?;
        }
    }
    Ok(())
}

// The records of the declaration after the blanks at the start of a text.
fn print_records(out: &impl Print, text: &[u8]) -> io::Result<()>
    requires { length text.now ≤ text_limit }
{
    let w = lexing::blanks::whitespace0(text, 0);
    let base = w.next;
    let doc = w.doc;
    let part = lexing::parts::rest_at(text, 0, base);
    let Ok((n, _)) = items::items::count_declaration(part, base) else {
        return Ok(());
    };
    let mut records = [0u8; 512];
    if 64 < n {
        return out.write_all(b" too long");
    }
    let wrote = items::items::write_declaration(part, base, doc, &mut records, 0);
    print_words(out, lines::front(&records, wrote.to))
}

fn print_item(out: &impl Print, text: &[u8]) -> io::Result<()>
    requires { length text.now ≤ text_limit }
{
    match items::items::count_item(text, 0) {
        Ok((_, c)) => {
            print_records(out, text)?;
            print_number(out, b" next ", c)
        }
        Err(l) => print_lost(out, l),
    }
}

// A line without its line feed.
fn print_line(out: &impl Print, line: &[u8]) -> io::Result<()> {
    let mut text = [0u8; 256];
    out.write_all(line)?;
    out.write_all(b" ->")?;
    let Ok(n) = lexing::unescaping::unescape(line, &mut text) else {
        return out.write_all(b" no text\n");
    };
    print_item(out, lines::front(&text, n))?;
    out.write_all(b"\n")
}

fn print_lines(out: &impl Print, input: &[u8]) -> io::Result<()> {
    for line in input.split_inclusive(|byte| *byte == b'\n') {
        print_line(out, line.strip_suffix(b"\n").unwrap_or(line))?;
    }
    Ok(())
}

fn main(rt: HostRuntime) -> io::Result<()> {
    let mut input = [0u8; 16384];
    let n = lines::read_full(&mut rt.stdin(), &mut input);
    print_lines(&rt.stdout(), &input[..n])
}
