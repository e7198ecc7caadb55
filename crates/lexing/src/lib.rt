// The tokens of Matter IDL. A reader is handed a part of a text, which may begin in the text's middle, and the offset of its first byte;
// offsets in its answer are those of the text.
//
// What is done for speed, each named once; no answer changes by it (docs/PERFORMANCE.md):
//
// Re-sliced: `let part = &part[..];` is the same slice. A function that hands its parameter on is handed it through memory; one that re-slices it
// is handed it in registers. A key is re-sliced in the same way.
// Rebuilt: a reader that hands on another's answer takes it apart and builds it again, which copies its numbers and not all the enum's room.
// Plain numbers: a struct or an enum that several calls can return goes through memory, and a number comes back in a register. So a hot function
// answers an offset alone, where its caller needs no more.
// Two parameters: a part and its base come in registers. A struct of the two goes through memory at each call: two tags in a row then take 1.5 to 3.2
// times as long, and lent, 1.04 to 1.4 times. So that they fit the text is a `requires` of each reader (document 01 hands a reader these two).
// Short front: a byte or two decide most calls. Their test is a short function, which the compiler copies to its callers; what is left is long or is
// called at several places, so that it stays a function of its own.
// In place: bytes are looked at in the part, and a slice of the rest is made only where a byte or two do not tell.
// Eight at a time: eight bytes are one number, which the compiler loads at once, and one test is made of all eight (`eights`).
#![tactic(auto)]

pub mod answers;
pub mod blanks;
pub mod buffers;
pub mod bytes;
mod eights;
pub mod integers;
pub mod names;
pub mod parts;
pub mod steps;
pub mod strings;
pub mod unescaping;
pub mod utf8;
pub mod word_sets;
pub mod words;
