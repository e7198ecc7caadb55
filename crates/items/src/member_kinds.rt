// What a member of a cluster is, told by its first word.
ghost use Rattle.std.specs.Prelude.{◌≡◌, true, cond, [], ◌∷◌, ◌+◌, ◌≤◌, length};
ghost use Rattle.lexing.specs.bytes.{ascii};
ghost use Rattle.lexing.specs.reply.{ok, fail};
ghost use Rattle.lexing.specs.words.{is_key, keyword, any_keyword};
ghost use Rattle.lexing.specs.answers.{word_reply};
ghost use Rattle.std.specs.Prelude.{Ok};
ghost use Rattle.lexing.specs.blanks.{no_doc, whitespace0};
ghost use Rattle.items.specs.layout.{text_limit};
ghost use Rattle.items.specs.declared.member_kinds.MemberKind.TheVariants.{Command, Event};
ghost use Rattle.items.specs.inner.member_kinds.{is_ok, third_letter_kind, KindTo};

use lexing::blanks::whitespace0;
use lexing::bytes::lower_of;
use lexing::parts::{peek, rest_at};
use lexing::words::keyword;

// What a member is by its first word.
#[derive(Clone, Copy)]
pub enum MemberKind {
    Revision,
    Bitmap,
    Enum,
    Struct,
    Attribute,
    Command,
    Event,
    Unknown,
}

// The one try that a first word selects, the furthest place at which the others fail, and where the try goes on: after `shared` and its blanks, if it is there.
#[derive(Clone, Copy)]
pub struct MemberStart {
    pub kind: MemberKind,
    pub others_fail_at: usize,
    pub from: usize,
}

// Whether a keyword is the first word.
pub fn starts(part: &[u8], base: usize, key: &[u8]) -> bool
    requires part_bound { base + length part.now ≤ text_limit }
    requires key_value { is_key key.now ≡ true }
    ensures { result ≡ is_ok (any_keyword (key.now ∷ []) base part.now) }
{
    let word = keyword(part, base, key);
    match word {
        Ok(_) => true,
        Err(_) => false,
    }
}

// The kind that the third letter of a first word says, where the first one is `r`: `readonly`, `revision`, `request`, `response`.
fn third_letter_kind(y: u8) -> MemberKind
    ensures { result ≡ third_letter_kind y }
{
    if y == b'a' {
        return MemberKind::Attribute;
    }
    if y == b'v' {
        return MemberKind::Revision;
    }
    MemberKind::Struct
}

// The kind that a first word selects, where events start with a keyword and commands with others.
fn event_or_command(part: &[u8], base: usize, key: &[u8]) -> MemberKind
    requires part_bound { base + length part.now ≤ text_limit }
    requires key_value { is_key key.now ≡ true }
    ensures { result ≡ cond (is_ok (any_keyword (key.now ∷ []) base part.now)) Event Command }
{
    if starts(part, base, key) {
        return MemberKind::Event;
    }
    MemberKind::Command
}

// The kind that a first word other than `shared` selects. Its first letter says it, but for four letters with which words of several kinds begin.
fn word_kind(part: &[u8], base: usize) -> MemberKind
    requires part_bound { base + length part.now ≤ text_limit }
    requires part_value { whitespace0 base part.now ≡ ok no_doc base part.now }
    requires part_value_2 { keyword (ascii "shared") base part.now ≡ fail base }
    ensures { KindTo (record { kind = result; others_fail_at = base; from = base }) base part.now }
{
    let x = lower_of(peek(part, 0));
    match x {
        b'a' | b'n' | b'w' => MemberKind::Attribute,
        b'b' => MemberKind::Bitmap,
        b'c' => event_or_command(part, base, b"critical"),
        b'd' | b'i' => MemberKind::Event,
        b'e' => MemberKind::Enum,
        b'f' => {
            if starts(part, base, b"fabric_scoped") {
                return MemberKind::Struct;
            }
            event_or_command(part, base, b"fabric_sensitive")
        }
        b'r' => third_letter_kind(lower_of(peek(part, 2))),
        b's' => MemberKind::Struct,
        b't' => {
            if starts(part, base, b"timedwrite") {
                return MemberKind::Attribute;
            }
            MemberKind::Command
        }
        _ => MemberKind::Unknown,
    }
}

// The kind after `shared`, which ends at c1: the word after it decides.
fn shared_kind(part: &[u8], base: usize, c1: usize) -> MemberStart
    requires part_bound { base + length part.now ≤ text_limit }
    requires part_value { whitespace0 base part.now ≡ ok no_doc base part.now }
    requires part_value_2 { word_reply (Ok c1) base part.now ≡ keyword (ascii "shared") base part.now }
    ensures { KindTo result base part.now }
{
    let w = whitespace0(rest_at(part, base, c1), c1);
    let from = w.next;
    if from == c1 {
        return MemberStart {
            kind: MemberKind::Struct,
            others_fail_at: base,
            from,
        };
    }
    let rest = rest_at(part, base, from);
    if starts(rest, from, b"bitmap") {
        return MemberStart {
            kind: MemberKind::Bitmap,
            others_fail_at: from,
            from,
        };
    }
    if starts(rest, from, b"enum") {
        return MemberStart {
            kind: MemberKind::Enum,
            others_fail_at: from,
            from,
        };
    }
    MemberStart {
        kind: MemberKind::Struct,
        others_fail_at: from,
        from,
    }
}

// What a member is, where no blank is before it.
pub fn member_kind(part: &[u8], base: usize) -> MemberStart
    requires part_bound { base + length part.now ≤ text_limit }
    requires part_value { whitespace0 base part.now ≡ ok no_doc base part.now }
    ensures { KindTo result base part.now }
{
    let part = &part[..];
    let Ok(c1) = keyword(part, base, b"shared") else {
        let kind = word_kind(part, base);
        return MemberStart {
            kind,
            others_fail_at: base,
            from: base,
        };
    };
    shared_kind(part, base, c1)
}
