// Replays stored texts: a line of standard input is a text's bytes in hexadecimal, then `=` and the bytes of its catalogue, or `!` and the result of its refusal, or, for
// a survey, `@` and the bytes of its catalogue, then `+` and those of its report. A line whose answer is another comes back; last come the number of texts and of those that differ.
#![tactic(auto)]

ghost use Rattle.std.specs.Prelude.{◌≤◌, ◌≡◌, length};

use std::io;

// What a catalogue holds before the call, to see which bytes are written.
const FILL: u8 = 0xa5;

// The value of a hexadecimal digit in lower case; no other byte is in the lines.
fn digit(b: u8) -> u8
    ensures { result ≤ 15 }
{
    match b {
        b'a'..=b'f' => b - b'a' + 10,
        b'g'.. => 0,
        _ => b % 16,
    }
}

fn byte_of(high: u8, low: u8) -> u8 {
    digit(high) * 16 + digit(low)
}

// Puts the bytes that pairs of digits stand for at the start of a buffer, as many as fit, and answers how many they are.
fn decode(digits: &[u8], out: &mut [u8]) -> usize {
    for (byte, pair) in out.iter_mut().zip(digits.chunks_exact(2)) {
        *byte = byte_of(pair[0], pair[1]);
    }
    out.len().min(digits.len() / 2)
}

// How many digits are at the front: up to the sign after a text or a catalogue.
fn digits_length(line: &[u8]) -> usize
    ensures { result ≤ length line.now }
{
    line.iter()
        .position(|byte| *byte < b'0' || *byte == b'=' || *byte == b'@')
        .unwrap_or(line.len())
}

// What is after the digits at the front and the sign.
fn after_digits(line: &[u8]) -> &[u8] {
    lexing::parts::after(lexing::parts::after(line, digits_length(line)), 1)
}

fn is_untouched(bytes: &[u8]) -> bool {
    bytes.iter().all(|byte| *byte == FILL)
}

// Whether a text was accepted with the wanted catalogue, and nothing after it is written.
fn is_accepted(answer: u64, catalogue: &[u8], wanted: &[u8]) -> bool {
    let n = wanted.len();
    answer == n as u64
        && lines::front(catalogue, n) == wanted
        && is_untouched(lexing::parts::after(catalogue, n))
}

// Whether a text was refused with the wanted result, and nothing is written.
fn is_refused(answer: u64, catalogue: &[u8], wanted: &[u8]) -> bool {
    answer.to_be_bytes().as_slice() == wanted && is_untouched(catalogue)
}

// Reading: a catalogue or a refusal is wanted.
fn is_read(text: &[u8], sign: u8, wanted: &[u8]) -> bool {
    let mut catalogue = [FILL; 512];
    let result = matter_idl::interface::matter_idl_read(text, &mut catalogue);
    match sign {
        b'=' => is_accepted(result, &catalogue, wanted),
        b'!' => is_refused(result, &catalogue, wanted),
        _ => false,
    }
}

// The survey: the digits of a catalogue and a report are wanted.
fn is_surveyed(text: &[u8], digits: &[u8]) -> bool {
    let mut catalogue = [FILL; 1024];
    let mut report = [FILL; 40960];
    let mut wanted = [0u8; 40960];
    let result = matter_idl::interface::matter_idl_survey(text, &mut catalogue, &mut report);
    let n = decode(lines::front(digits, digits_length(digits)), &mut wanted);
    if !is_accepted(result, &catalogue, lines::front(&wanted, n)) {
        return false;
    }
    let m = decode(after_digits(digits), &mut wanted);
    is_accepted(m as u64, &report, lines::front(&wanted, m))
}

// A line without its line feed.
fn holds(line: &[u8]) -> bool {
    let mut text = [0u8; 16384];
    let mut wanted = [0u8; 512];
    let at = digits_length(line);
    let size = decode(lines::front(line, at), &mut text);
    let sign = lexing::parts::peek(line, at);
    let following = after_digits(line);
    if sign == b'@' {
        return is_surveyed(lines::front(&text, size), following);
    }
    let n = decode(following, &mut wanted);
    is_read(lines::front(&text, size), sign, lines::front(&wanted, n))
}

// Whether a line's answer is another than the wanted one; then it comes back.
fn differs(out: &impl Print, line: &[u8]) -> io::Result<bool> {
    if holds(line) {
        return Ok(false);
    }
    out.write_all(line)?;
    out.write_all(b"\n")?;
    Ok(true)
}

fn print_counts(out: &impl Print, texts: usize, differ: usize) -> io::Result<()> {
    println!(out; "{texts} texts, {differ} differ")
}

fn replay_lines(out: &impl Print, input: &[u8]) -> io::Result<()> {
    let mut at = 0;
    let mut texts = 0;
    let mut differ = 0;
    // Not `split_inclusive`, as elsewhere: the sums need a bound by the input's length, and over that iterator their proof does not close.
    while at < input.len() {
        let rest = lexing::parts::rest_at(input, 0, at);
        let n = lines::line_length(rest);
        differ += usize::from(differs(out, lines::front(rest, n))?);
        texts += 1;
        at += n;
        if at < input.len() {
            at += 1;
        }
    }
    print_counts(out, texts, differ)
}

// Zeros. The length is a parameter, since a proof over a numeral as large as that of main goes through every element.
fn zeros<const N: usize>() -> [u8; N]
    ensures { N ≡ length result }
{
    [0; N]
}

fn main(rt: HostRuntime) -> io::Result<()> {
    let mut input = zeros::<524288>();
    let n = lines::read_full(&mut rt.stdin(), &mut input);
    replay_lines(&rt.stdout(), &input[..n])
}
