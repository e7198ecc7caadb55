// Readers of tokens under C names, for the measurements in bench/.
#![tactic(auto)]

ghost use Rattle.std.specs.Prelude.{◌≡◌};
ghost use Rattle.lexing.specs.blanks.{whitespace0};
ghost use Rattle.token_exports.specs.exports.{following, after_keyword};

// The offset after the blanks at the front.
#[unsafe(no_mangle)]
pub extern "C" fn token_blanks(text: &[u8]) -> usize
    ensures { result ≡ following (whitespace0 0 text.now) }
{
    let b = lexing::blanks::whitespace0(text, 0);
    b.next
}

// The offset after a word that is the keyword, or the largest number. C can hand over any bytes as the keyword, and the reader takes only letters
// from a to z and underscores: others are answered like a word that is not there. By the definition they are read nowhere, but for a keyword with
// a digit after its first byte, and the language has none.
#[unsafe(no_mangle)]
pub extern "C" fn token_keyword(text: &[u8], key: &[u8]) -> usize
    ensures { result ≡ after_keyword key.now text.now }
{
    if lexing::words::is_key(key) {
        return match lexing::words::keyword(text, 0, key) {
            Ok(c) => c,
            Err(_) => usize::MAX,
        };
    }
    usize::MAX
}
