// Sections of a text: a cut is after a } whose preceding byte is LF.
ghost use Rattle.std.specs.Prelude.{◌≡◌, ◌+◌, ◌-◌, ◌≤◌, ◌<◌, length, take, drop};
ghost use Rattle.items.specs.layout.{text_limit};
ghost use Rattle.matter_idl.specs.inner.sections.{cut_at, Cutless, Uncut, FirstSection};

// A section of a part: the offset after it, and whether it is the text's last, with no cut after it.
#[derive(Clone, Copy)]
pub struct Section {
    pub end: usize,
    pub last: bool,
}

// Whether a cut is after the byte at i.
fn is_cut(text: &[u8], i: usize) -> bool
    requires le_i { 1 ≤ i }
    requires i_in_bounds { i < length text.now }
    ensures { result ≡ cut_at text.now i }
{
    (text[i - 1] == b'\n') & (text[i] == b'}')
}

// Whether a cut is after one of sixty-four bytes, which the compiler compares by vectors.
fn cut_64(part: &[u8], i: usize) -> bool
    requires le_i { 1 ≤ i }
    requires i_in_bounds { i + 64 ≤ length part.now }
    ensures { Cutless result part.now i 64 }
{
    let mut found = false;
    for j in 0..64 {
        found |= is_cut(part, i + j);
    }
    found
}

// How many bytes are passed 64 at a time with no cut among them; the first is passed too, since no cut is after it.
fn cutless(part: &[u8]) -> usize
    requires { length part.now ≤ text_limit }
    ensures { Uncut part.now result }
{
    let mut i = 1;
    // Not a `for`: the answer is where the steps of 64 end.
    while i + 64 <= part.len() && !cut_64(part, i) {
        i += 64;
    }
    i
}

// The first section of a part that begins where a section does.
pub fn first_section(part: &[u8], base: usize) -> Section
    requires { base + length part.now ≤ text_limit }
    ensures { FirstSection result base part.now }
{
    for i in cutless(part)..part.len() {
        if is_cut(part, i) {
            return Section {
                end: base + i + 1,
                last: false,
            };
        }
    }
    Section {
        end: base + part.len(),
        last: true,
    }
}

// The bytes between two offsets of a text.
pub fn section_at(text: &[u8], start: usize, end: usize) -> &[u8]
    requires start_le_end { start ≤ end }
    requires end_in_bounds { end ≤ length text.now }
    ensures { result.now ≡ take (end - start) (drop start text.now) }
{
    &text[start..end]
}
