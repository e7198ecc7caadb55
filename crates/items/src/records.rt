// Records read back from a catalogue's bytes: the values of the record at an offset, by division and remainder of its first word.
ghost use Rattle.std.specs.Prelude.{◌≡◌, ◌+◌, ◌*◌, ◌≤◌, ◌<◌, length};
ghost use Rattle.items.specs.layout.{kind_field, place_field, maturity_field, doc_field, flags_field, offset_field, length_field, first_privilege_field, second_privilege_field, layout, words_of_kind};
ghost use Rattle.items.specs.stored.{word_at, value_at, further_at, placed};

use crate::layout::{
    ANNOTATION, ANNOTATION_WORDS, ATTRIBUTE, ATTRIBUTE_INSTANCE, ATTRIBUTE_INSTANCE_WORDS,
    ATTRIBUTE_WORDS, BITMAP, CHOICE_WORDS, CLUSTER, CLUSTER_WORDS, COMMAND, COMMAND_WORDS,
    DEVICE_TYPE, DEVICE_TYPE_WORDS, DOC_UNIT, ENDPOINT, ENDPOINT_WORDS, ENTRY, ENTRY_WORDS, ENUM,
    EVENT, EVENT_WORDS, FIELD, FIELD_WORDS, FIRST_PRIVILEGE_UNIT, FLAGS, FLAGS_UNIT, HEAD_WORDS,
    LENGTH_UNIT, MATURITY_UNIT, NAME_UNIT, NAMED_WORDS, OFFSETS, PLACE_UNIT, STRUCT, STRUCT_WORDS,
    WORD,
};
use lexing::buffers::put_word;

// How many words a record of a kind takes.
pub fn words_of(kind: u8) -> usize
    ensures { result ≡ words_of_kind layout kind }
{
    match kind {
        CLUSTER => CLUSTER_WORDS,
        ENUM => CHOICE_WORDS,
        BITMAP => CHOICE_WORDS,
        ENTRY => ENTRY_WORDS,
        STRUCT => STRUCT_WORDS,
        FIELD => FIELD_WORDS,
        ATTRIBUTE => ATTRIBUTE_WORDS,
        COMMAND => COMMAND_WORDS,
        EVENT => EVENT_WORDS,
        ENDPOINT => ENDPOINT_WORDS,
        DEVICE_TYPE => DEVICE_TYPE_WORDS,
        ATTRIBUTE_INSTANCE => ATTRIBUTE_INSTANCE_WORDS,
        ANNOTATION => ANNOTATION_WORDS,
        _ => NAMED_WORDS,
    }
}

fn wide(x: u8) -> u64
    ensures value { result ≡ x }
    ensures upper_bound { result < 256 }
{
    u64::from(x)
}

// Eight bytes as a word, the most significant first. The compiler makes one load of a sum in this order: with `u64::from_be_bytes` of a copied
// part, and `from_le_bytes` in lexing's `eights`, reading is 8 to 15 percent slower.
pub fn word_at(bytes: &[u8], at: usize) -> u64
    requires { at + 8 ≤ length bytes.now }
    ensures { result ≡ word_at bytes.now at }
{
    wide(bytes[at + 7])
        + wide(bytes[at + 6]) * 0x100
        + wide(bytes[at + 5]) * 0x1_0000
        + wide(bytes[at + 4]) * 0x100_0000
        + wide(bytes[at + 3]) * 0x1_0000_0000
        + wide(bytes[at + 2]) * 0x100_0000_0000
        + wide(bytes[at + 1]) * 0x1_0000_0000_0000
        + wide(bytes[at]) * 0x100_0000_0000_0000
}

// A kind and a place are in the first two bytes, which are loaded without the rest: most records are told apart by them.
pub fn kind_at(bytes: &[u8], at: usize) -> u8
    requires { at + 8 ≤ length bytes.now }
    ensures { result ≡ value_at layout kind_field bytes.now at }
{
    bytes[at]
}

pub fn place_at(bytes: &[u8], at: usize) -> u8
    requires { at + 8 ≤ length bytes.now }
    ensures { result ≡ value_at layout place_field bytes.now at }
{
    bytes[at + 1] / PLACE_IN_BYTE
}

// One place in a record's second byte.
const PLACE_IN_BYTE: u8 = (PLACE_UNIT / 0x1_0000_0000_0000) as u8;

pub fn flags_at(bytes: &[u8], at: usize) -> u8
    requires { at + 8 ≤ length bytes.now }
    ensures { result ≡ value_at layout flags_field bytes.now at }
{
    (word_at(bytes, at) / FLAGS_UNIT % FLAGS) as u8
}

pub fn name_offset_at(bytes: &[u8], at: usize) -> usize
    requires { at + 8 ≤ length bytes.now }
    ensures { result ≡ value_at layout offset_field bytes.now at }
{
    (word_at(bytes, at) / NAME_UNIT % OFFSETS as u64) as usize
}

pub fn name_length_at(bytes: &[u8], at: usize) -> usize
    requires { at + 8 ≤ length bytes.now }
    ensures { result ≡ value_at layout length_field bytes.now at }
{
    (word_at(bytes, at) / LENGTH_UNIT % OFFSETS as u64) as usize
}

// Nothing in the library calls the five functions below: they are for what looks records up in a catalogue.
pub fn maturity_at(bytes: &[u8], at: usize) -> u8
    requires { at + 8 ≤ length bytes.now }
    ensures { result ≡ value_at layout maturity_field bytes.now at }
{
    (word_at(bytes, at) / MATURITY_UNIT % 4) as u8
}

pub fn doc_present_at(bytes: &[u8], at: usize) -> u8
    requires { at + 8 ≤ length bytes.now }
    ensures { result ≡ value_at layout doc_field bytes.now at }
{
    (word_at(bytes, at) / DOC_UNIT % 2) as u8
}

pub fn first_privilege_at(bytes: &[u8], at: usize) -> u8
    requires { at + 8 ≤ length bytes.now }
    ensures { result ≡ value_at layout first_privilege_field bytes.now at }
{
    (word_at(bytes, at) / FIRST_PRIVILEGE_UNIT % 4) as u8
}

pub fn second_privilege_at(bytes: &[u8], at: usize) -> u8
    requires { at + 8 ≤ length bytes.now }
    ensures { result ≡ value_at layout second_privilege_field bytes.now at }
{
    (word_at(bytes, at) % 4) as u8
}

// A further word, from 0: a number as it is, or a span.
pub fn further_word_at(bytes: &[u8], at: usize, k: usize) -> u64
    requires { at + 8 * (1 + k) + 8 ≤ length bytes.now }
    ensures { result ≡ further_at layout bytes.now at k }
{
    word_at(bytes, at + WORD * (HEAD_WORDS + k))
}

// Gives a place to the record at an offset, which has place 0.
pub fn set_place(out: &mut [u8], at: usize, place: u8)
    requires at_in_bounds { at + 8 ≤ length out.old }
    requires at_value { value_at layout place_field out.old at ≡ 0 }
    requires place_bound { place < 4 }
    ensures { out.new ≡ placed layout place out.old at }
{
    let w = word_at(out, at);
    put_word(out, at, w + u64::from(place) * PLACE_UNIT);
}
