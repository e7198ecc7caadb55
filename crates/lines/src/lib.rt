// Lines of known answers, for the programs that run them, and how a program reads its input.
#![tactic(auto)]

ghost use Rattle.std.specs.Prelude.{◌≤◌, ◌≡◌, length, take};
ghost use Rattle.std.specs.Io.KnownBytes.{Consumes};
ghost use Rattle.lines.specs.lines.{line};

use std::io::Read;

// The first n bytes, or all where there are fewer.
pub fn front(text: &[u8], n: usize) -> &[u8]
    ensures result_value { result.now ≡ take n text.now }
    ensures result_in_bounds { length result.now ≤ length text.now }
{
    &text[..n.min(text.len())]
}

// How many bytes are before the next line feed.
pub fn line_length(part: &[u8]) -> usize
    ensures value { result ≡ length (line part.now) }
    ensures upper_bound { result ≤ length part.now }
{
    part.iter()
        .position(|byte| *byte == b'\n')
        .unwrap_or(part.len())
}

// Reads until the buffer is full, the input ends or a read fails, and answers how many bytes it put at the start of the buffer.
pub fn read_full<R: Read>(input: &mut R, buffer: &mut [u8]) -> usize
    ensures in_bounds { result ≤ length buffer.new }
    ensures bytes { Consumes (R.remaining input.old) (R.remaining input.new) (take result buffer.new) }
{
    let mut done = 0;
    while done < buffer.len() {
        match input.read(&mut buffer[done..]) {
            Ok(0) => return done,
            Ok(n) => done += n,
            Err(_) => return done,
        }
    }
    done
}
