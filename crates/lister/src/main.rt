// Lists the catalogue of the text on standard input: each word as 16 hexadecimal digits, one a line, or `refused`, the number and the value.
// Standard error says where the input can't be read or the output can't be written.
#![tactic(auto)]

use matter_idl::interface::matter_idl_read;
use std::io;
use std::io::Read;

// After a failed write nothing more is tried.
fn print_refusal(out: &impl Print, number: u64, value: u64) -> io::Result<()> {
    println!(out; "refused {number} {value}")
}

// Eight bytes make a word; a catalogue is whole words.
fn print_words(out: &impl Print, bytes: &[u8]) -> io::Result<()> {
    for word in bytes.chunks_exact(8) {
        for byte in word {
            print!(out; "{byte:02x}")?;
        }
        out.write_all(b"\n")?;
    }
    Ok(())
}

fn print_result(out: &impl Print, answer: u64, catalogue: &[u8]) -> io::Result<()> {
    let number = answer / 0x100_0000_0000_0000;
    let value = answer % 0x100_0000_0000_0000;
    if number != 0 {
        return print_refusal(out, number, value);
    }
    print_words(out, lines::front(catalogue, value as usize))
}

// A byte after the buffer's end makes the text too long. A read that fails ends the input as its end does, so the end is asked for once more.
fn list(
    input: &mut impl Read,
    out: &impl Print,
    errors: &impl Print,
    text: &mut [u8],
    catalogue: &mut [u8],
) -> io::Result<()> {
    let mut more = [0u8; 1];
    let n = lines::read_full(input, text);
    match input.read(&mut more) {
        Ok(0) => {
            let answer = matter_idl_read(&text[..n], catalogue);
            print_result(out, answer, catalogue)
        }
        Ok(_) if n == text.len() => print_refusal(out, 1, 65536),
        _ => {
            // Where this can't be written either, nothing is left to say so.
            let _ = errors.write_all(b"lister: the input can't be read\n");
            Ok(())
        }
    }
}

fn main(rt: HostRuntime) {
    let mut text = [0u8; 65536];
    let mut catalogue = [0u8; 65536];
    let errors = rt.stderr();
    let listed = list(
        &mut rt.stdin(),
        &rt.stdout(),
        &errors,
        &mut text,
        &mut catalogue,
    );
    if listed.is_err() {
        let _ = errors.write_all(b"lister: the output can't be written\n");
    }
}
