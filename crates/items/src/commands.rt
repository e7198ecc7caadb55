// Commands.
ghost use Rattle.std.specs.Prelude.{◌≡◌, [], ◌∷◌, ◌+◌, ◌-◌, ◌≤◌, ltb, length};
ghost use Rattle.lexing.specs.answers.{doc_of};
ghost use Rattle.items.specs.layout.{text_limit, layout, further_word, catalogue_bytes};
ghost use Rattle.lexing.specs.buffers.{put};
ghost use Rattle.items.specs.records.{spanned, command_kind};
ghost use Rattle.items.specs.members.{parse_command_after_doc_maturity};
ghost use Rattle.items.specs.answers.{FrontFits, Room, Written, maturity_number};
ghost use Rattle.items.specs.inner.commands.{CommandHeadTo, CommandTypesTo, CommandBetween, CommandTo, CommandCountTo, command_records, OptionalIdAt, extent_if, command_parts};
ghost use Rattle.items.specs.inner.writing.{room_for};

use crate::layout::{COMMAND, COMMAND_BYTES, COMMAND_WORDS, DOCUMENTED_BYTES};
use crate::levels::{Privilege, access_to};
use crate::writing::{First, FrontParts, Wrote, doc_bit, flag, put_documented, span_word};
use lexing::answers::Read;
use lexing::buffers::put_words;
use lexing::names::{blank_equals_code, blank_word, colon_type};
use lexing::parts::rest_at;
use lexing::steps::{blank_at, tag_after};
use lexing::word_sets::{KeywordSet, keywords_set};
use lexing::words::{id_at, keyword};

// Up to a command's name: its flags, the privilege to invoke it, the offsets of its name and after it.
#[derive(Clone, Copy)]
pub struct CommandHeadParts {
    pub name: usize,
    pub qualities: u8,
    pub privilege: Privilege,
    pub end: usize,
}

// A command's input and output, each by the offset of its name and the one after it; they are the same where there is no input.
#[derive(Clone, Copy)]
pub struct CommandTypesParts {
    pub input: usize,
    pub output: usize,
    pub input_end: usize,
    pub output_end: usize,
}

#[derive(Clone, Copy)]
pub struct CommandParts {
    pub head: CommandHeadParts,
    pub types: CommandTypesParts,
    pub code: u64,
}

pub fn command_head(part: &[u8], base: usize) -> Read<CommandHeadParts>
    requires { base + length part.now ≤ text_limit }
    ensures { CommandHeadTo result base part.now }
{
    let q = keywords_set(part, base, KeywordSet::Command);
    let c1 = q.next;
    let c2 = blank_at(part, base, c1);
    let c3 = keyword(rest_at(part, base, c2), c2, b"command")?;
    let (privilege, c4) = access_to(rest_at(part, base, c3), c3, b"invoke", Privilege::Operate);
    let (named, c5) = blank_word(part, base, c4)?;
    Ok((
        CommandHeadParts {
            qualities: q.flags,
            privilege,
            name: named.start,
            end: named.end,
        },
        c5,
    ))
}

// The offset after a name that may be absent, from an offset of a part.
fn optional_id(part: &[u8], base: usize, c: usize) -> usize
    requires { ((base ≤ c) × (c ≤ base + length part.now)) × (base + length part.now ≤ text_limit) }
    ensures { OptionalIdAt result base part.now c }
{
    let Ok(end) = id_at(part, base, c) else {
        return c;
    };
    end
}

// `(input) : output`
pub fn command_types(part: &[u8], base: usize) -> Read<CommandTypesParts>
    requires { base + length part.now ≤ text_limit }
    ensures { CommandTypesTo result base part.now }
{
    let c1 = tag_after(part, base, base, b'(')?;
    let input = blank_at(part, base, c1);
    let input_end = optional_id(part, base, input);
    let c2 = tag_after(part, base, input_end, b')')?;
    let (output, c3) = colon_type(rest_at(part, base, c2), c2)?;
    Ok((
        CommandTypesParts {
            input,
            input_end,
            output: output.start,
            output_end: output.end,
        },
        c3,
    ))
}

pub fn parse_command_after_doc_maturity(part: &[u8], base: usize) -> Read<CommandParts>
    requires { base + length part.now ≤ text_limit }
    ensures { CommandTo result base part.now }
{
    let part = &part[..];
    let (head, c1) = command_head(part, base)?;
    let (types, c2) = command_types(rest_at(part, base, c1), c1)?;
    let (code, c3) = blank_equals_code(part, base, c2)?;
    let c4 = tag_after(part, base, c3, b';')?;
    Ok((CommandParts { head, types, code }, c4))
}

// The span between two offsets, or zeros where there is nothing between them.
fn optional_span_word(from: usize, to: usize) -> u64
    requires from_le_to { from ≤ to }
    requires to_le_text_limit { to ≤ text_limit }
    ensures { result ≡ further_word layout (spanned (extent_if (ltb from to) from (to - from))) }
{
    if from < to {
        return span_word(from, to - from);
    }
    0
}

// The record of a command.
fn put_command(out: &mut [u8], at: usize, front: FrontParts, p: CommandParts)
    requires command_kind_in_bounds { at + room_for command_kind ≤ length out.old }
    requires front_fits { FrontFits front }
    requires command_between { CommandBetween 0 p text_limit }
    ensures { out.new ≡ put at (catalogue_bytes layout (command_parts front p ∷ [])) out.old }
{
    let doc = front.doc;
    let h = p.head;
    let t = p.types;
    let first = First {
        kind: COMMAND,
        place: 0,
        maturity: front.maturity,
        doc_present: doc_bit(doc),
        flags: h.qualities * 32 + flag(t.input < t.input_end) * 16,
        name: h.name,
        name_length: h.end - h.name,
        first_privilege: h.privilege,
        second_privilege: Privilege::View,
    };
    put_documented(out, at, first, doc);
    let input = optional_span_word(t.input, t.input_end);
    let output = span_word(t.output, t.output_end - t.output);
    put_words(out, at + DOCUMENTED_BYTES, [input, output, p.code]);
}

// The second pass over a command.
pub fn write_command(
    part: &[u8],
    base: usize,
    front: FrontParts,
    out: &mut [u8],
    at: usize,
) -> Wrote
    requires part_bound { base + length part.now ≤ text_limit }
    requires front_fits { FrontFits front }
    requires room { Room command_records (parse_command_after_doc_maturity (doc_of front.doc) (maturity_number front.maturity)) base part.now at (length out.old) }
    ensures { Written command_records (parse_command_after_doc_maturity (doc_of front.doc) (maturity_number front.maturity)) base part.now at result out.old out.new }
{
    let Ok((p, c)) = parse_command_after_doc_maturity(part, base) else {
        return Wrote { next: base, to: at };
    };
    put_command(out, at, front, p);
    Wrote {
        next: c,
        to: at + COMMAND_BYTES,
    }
}

// The first pass over a command: five words.
pub fn count_command(part: &[u8], base: usize) -> Read<usize>
    requires { base + length part.now ≤ text_limit }
    ensures { CommandCountTo result base part.now }
{
    let (_, c) = parse_command_after_doc_maturity(part, base)?;
    Ok((COMMAND_WORDS, c))
}
