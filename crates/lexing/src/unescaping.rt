// Unescaping of a default string's bytes: a first pass counts what comes out, a second writes it.
ghost use Rattle.std.specs.Prelude.{◌≡◌, ◌<◌, length};
ghost use Rattle.lexing.specs.unescaping.{escaped, unescape as unescape_of, outcome, answer};
ghost use Rattle.lexing.specs.inner.unescaping.{size_of, PieceAt};
ghost use Rattle.lexing.specs.outcomes.{returned, afterwards};

// Fault: the offset of the first quote or backslash at fault. Short: the count of the bytes needed.
#[derive(Clone, Copy, PartialEq, Eq)]
pub enum UnescapeError {
    Fault(usize),
    Short(usize),
}

// The byte that a backslash and y stand for, if any.
fn meaning_of(y: u8) -> Option<u8>
    ensures { result ≡ escaped y }
{
    match y {
        b'"' => Some(b'"'),
        b'\\' => Some(b'\\'),
        b'n' => Some(b'\n'),
        b't' => Some(b'\t'),
        _ => None,
    }
}

// What is at an offset of a part: one byte or an escape, with the byte that comes out and the offset after it. At a fault it is nothing: a bare
// quote, a lone last backslash, or a bad escape.
fn next_piece(part: &[u8], at: usize) -> Option<(u8, usize)>
    requires { at < length part.now }
    ensures { PieceAt part.now at result }
{
    let next = at + 1;
    match part[at] {
        b'"' => None,
        b'\\' => {
            let y = *part.get(next)?;
            let z = meaning_of(y)?;
            Some((z, next + 1))
        }
        x => Some((x, next)),
    }
}

// The first pass, which writes nothing: the count of the bytes that come out, or the offset of the first fault.
fn size_of(part: &[u8]) -> Result<usize, usize>
    ensures { result ≡ size_of (unescape_of part.now) }
{
    let mut at = 0;
    let mut n = 0;
    // No `for`: a turn passes one byte or two, by what `next_piece` answers.
    while at < part.len() {
        let (_, next) = next_piece(part, at).ok_or(at)?;
        at = next;
        n += 1;
    }
    Ok(n)
}

// The second pass, where nothing is refused: no piece is wrong, and the output holds what comes out.
fn write(part: &[u8], output: &mut [u8])
    requires { (returned (outcome part.now (length output.old))).0 ≡ 0 }
    ensures { output.new ≡ afterwards (outcome part.now (length output.old)) output.old }
{
    let mut at = 0;
    let mut n = 0;
    // No `for`: a turn passes one byte or two, as in `size_of`.
    while at < part.len() {
        let Some((z, next)) = next_piece(part, at) else {
            return;
        };
        output[n] = z;
        at = next;
        n += 1;
    }
}

// Unescapes a part into an output and answers the count of the bytes written. Where it answers an error, the output is unchanged.
pub fn unescape(part: &[u8], output: &mut [u8]) -> Result<usize, UnescapeError>
    ensures result_value { answer result ≡ returned (outcome part.now (length output.old)) }
    ensures output_after { output.new ≡ afterwards (outcome part.now (length output.old)) output.old }
{
    match size_of(part) {
        Err(offset) => Err(UnescapeError::Fault(offset)),
        Ok(n) if output.len() < n => Err(UnescapeError::Short(n)),
        Ok(n) => {
            write(part, output);
            Ok(n)
        }
    }
}
