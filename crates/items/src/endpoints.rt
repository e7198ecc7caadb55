// Endpoints: device types, bindings and cluster instantiations.
ghost use Rattle.std.specs.Prelude.{◌≡◌, [], ◌∷◌, ◌+◌, ◌≤◌, length};
ghost use Rattle.lexing.specs.bytes.{ascii};
ghost use Rattle.lexing.specs.reply.{ok};
ghost use Rattle.lexing.specs.blanks.{no_doc, whitespace0};
ghost use Rattle.lexing.specs.answers.{number_reply, NameIn};
ghost use Rattle.items.specs.layout.{text_limit, layout, catalogue_bytes};
ghost use Rattle.lexing.specs.buffers.{put, each};
ghost use Rattle.items.specs.records.{part_records, endpoint_records, device_type_kind, endpoint_kind};
ghost use Rattle.lexing.specs.names.{named_after};
ghost use Rattle.items.specs.endpoints.{device_version, device_type, deep_braces, device, binding, part_tries, endpoint_head, endpoint};
ghost use Rattle.items.specs.answers.{CountTo, Room, Written};
ghost use Rattle.items.specs.inner.endpoints.{DeviceTypeTo, device_parts, endpoint_first};
ghost use Rattle.items.specs.inner.instances.{TriedTo, deep_rest};
ghost use Rattle.items.specs.inner.writing.{room_for};

use crate::instances::{
    count_cluster_instantiation, plain_word, put_named, write_cluster_instantiation,
};
use crate::layout::{
    DEVICE_TYPE_BYTES, DEVICE_TYPE_WORDS, ENDPOINT_BYTES, ENDPOINT_WORDS, Kind, NAMED_BYTES,
    NAMED_WORDS,
};
use crate::writing::Wrote;
use lexing::answers::Read;
use lexing::buffers::put_words;
use lexing::bytes::lower_of;
use lexing::names::{Named, blank_equals_code, keyword_number, named_after, two_keywords_name};
use lexing::parts::{peek, rest_at};
use lexing::steps::{blank_at, integer_after, keyword_after, tag_after};
use lexing::words::tag;

// A device type: where its name starts and ends, its code and its version.
#[derive(Clone, Copy)]
pub struct DeviceTypeParts {
    pub name: usize,
    pub code: u64,
    pub end: usize,
    pub version: u64,
}

// A device type from its comma on.
fn device_version(part: &[u8], base: usize) -> Read<u64>
    requires { base + length part.now ≤ text_limit }
    ensures { number_reply result base part.now ≡ device_version base part.now }
{
    let c1 = tag_after(part, base, base, b',')?;
    let c2 = keyword_after(part, base, c1, b"version")?;
    let (v, c3) = integer_after(part, base, c2)?;
    let c4 = tag_after(part, base, c3, b';')?;
    Ok((v, c4))
}

pub fn device_type(part: &[u8], base: usize) -> Read<DeviceTypeParts>
    requires { base + length part.now ≤ text_limit }
    ensures { DeviceTypeTo result base part.now }
{
    let part = &part[..];
    let (named, c1) = two_keywords_name(part, base, b"device", b"type")?;
    let (code, c2) = blank_equals_code(part, base, c1)?;
    let (version, c3) = device_version(rest_at(part, base, c2), c2)?;
    let t = DeviceTypeParts {
        name: named.start,
        end: named.end,
        code,
        version,
    };
    Ok((t, c3))
}

// The first pass over a binding: one word.
fn count_binding(part: &[u8], base: usize) -> Read<usize>
    requires { base + length part.now ≤ text_limit }
    ensures { CountTo (λ n. part_records (binding n)) (named_after (ascii "binding") (ascii "cluster")) result base part.now }
{
    let (_, c) = named_after(part, base, b"binding", b"cluster")?;
    Ok((NAMED_WORDS, c))
}

// The first pass over a device type: three words.
fn count_device_type(part: &[u8], base: usize) -> Read<usize>
    requires { base + length part.now ≤ text_limit }
    ensures { CountTo (λ t. part_records (device t)) device_type result base part.now }
{
    let (_, c) = device_type(part, base)?;
    Ok((DEVICE_TYPE_WORDS, c))
}

// The first pass over a part of an endpoint, before which no blank is: the one try that its first letter selects; the others fail at their start.
fn count_part(part: &[u8], base: usize) -> Read<usize>
    requires part_bound { base + length part.now ≤ text_limit }
    requires part_value { whitespace0 base part.now ≡ ok no_doc base part.now }
    ensures { TriedTo part_records part_tries result base part.now }
{
    let x = lower_of(peek(part, 0));
    match x {
        b's' => count_cluster_instantiation(part, base),
        b'b' => count_binding(part, base),
        _ => count_device_type(part, base),
    }
}

// The first pass over parts after their opening brace, up to the closing one: where that is not there, there is one more of them.
fn count_parts(part: &[u8], base: usize) -> Read<usize>
    requires { base + length part.now ≤ text_limit }
    ensures { CountTo (each part_records) (deep_rest part_tries) result base part.now }
{
    let mut c = base;
    let mut n = 0;
    loop {
        let start = blank_at(part, base, c);
        let rest = rest_at(part, base, start);
        if let Ok(end) = tag(rest, start, b'}') {
            return Ok((n, end));
        }
        let (k, next) = count_part(rest, start)?;
        c = next;
        n += k;
    }
}

// The first pass over the parts between braces.
fn count_braced_parts(part: &[u8], base: usize) -> Read<usize>
    requires { base + length part.now ≤ text_limit }
    ensures { CountTo (each part_records) (deep_braces part_tries) result base part.now }
{
    let c = tag(part, base, b'{')?;
    count_parts(rest_at(part, base, c), c)
}

// An endpoint up to its parts: its number.
pub fn endpoint_head(part: &[u8], base: usize) -> Read<u64>
    requires { base + length part.now ≤ text_limit }
    ensures { number_reply result base part.now ≡ endpoint_head base part.now }
{
    let part = &part[..];
    let c1 = blank_at(part, base, base);
    let (id, c2) = keyword_number(rest_at(part, base, c1), c1, b"endpoint")?;
    let c3 = blank_at(part, base, c2);
    Ok((id, c3))
}

// The first pass over an endpoint: two words, and those of its parts.
pub fn count_endpoint(part: &[u8], base: usize) -> Read<usize>
    requires { base + length part.now ≤ text_limit }
    ensures { CountTo endpoint_records endpoint result base part.now }
{
    let (_, c1) = endpoint_head(part, base)?;
    let (n, c2) = count_braced_parts(rest_at(part, base, c1), c1)?;
    Ok((n + ENDPOINT_WORDS, c2))
}

// The record of a device type.
fn put_device_type(out: &mut [u8], at: usize, t: DeviceTypeParts)
    requires device_type_kind_in_bounds { at + room_for device_type_kind ≤ length out.old }
    requires name_in { NameIn 0 t.name t.end text_limit }
    ensures { out.new ≡ put at (catalogue_bytes layout (device_parts t ∷ [])) out.old }
{
    let name = Named {
        start: t.name,
        end: t.end,
    };
    let word = plain_word(Kind::DeviceType, 0, name);
    put_words(out, at, [word, t.code, t.version]);
}

// The first record of an endpoint.
fn put_endpoint(out: &mut [u8], at: usize, id: u64)
    requires { at + room_for endpoint_kind ≤ length out.old }
    ensures { out.new ≡ put at (catalogue_bytes layout (endpoint_first id ∷ [])) out.old }
{
    let absent = Named { start: 0, end: 0 };
    put_words(out, at, [plain_word(Kind::Endpoint, 0, absent), id]);
}

// The second pass over a part of an endpoint, before which no blank is. A try that fails here costs no more than its first word.
fn write_part(part: &[u8], base: usize, out: &mut [u8], at: usize) -> Wrote
    requires part_bound { base + length part.now ≤ text_limit }
    requires part_value { whitespace0 base part.now ≡ ok no_doc base part.now }
    requires room { Room (λ t. part_records t.value) (part_tries base) base part.now at (length out.old) }
    ensures { Written (λ t. part_records t.value) (part_tries base) base part.now at result out.old out.new }
{
    if let Ok((t, c)) = device_type(part, base) {
        put_device_type(out, at, t);
        return Wrote {
            next: c,
            to: at + DEVICE_TYPE_BYTES,
        };
    }
    if let Ok((name, c)) = named_after(part, base, b"binding", b"cluster") {
        put_named(out, at, Kind::Binding, name);
        return Wrote {
            next: c,
            to: at + NAMED_BYTES,
        };
    }
    write_cluster_instantiation(part, base, out, at)
}

// The second pass over parts after their opening brace, up to the closing one: where that is not there, there is one more of them.
fn write_parts(part: &[u8], base: usize, out: &mut [u8], at: usize) -> Wrote
    requires part_bound { base + length part.now ≤ text_limit }
    requires room { Room (each part_records) (deep_rest part_tries) base part.now at (length out.old) }
    ensures { Written (each part_records) (deep_rest part_tries) base part.now at result out.old out.new }
{
    let mut c = base;
    let mut to = at;
    loop {
        let start = blank_at(part, base, c);
        let rest = rest_at(part, base, start);
        if let Ok(end) = tag(rest, start, b'}') {
            return Wrote { next: end, to };
        }
        let wrote = write_part(rest, start, out, to);
        c = wrote.next;
        to = wrote.to;
    }
}

// The second pass over an endpoint: after its head is the opening brace.
pub fn write_endpoint(part: &[u8], base: usize, out: &mut [u8], at: usize) -> Wrote
    requires part_bound { base + length part.now ≤ text_limit }
    requires room { Room endpoint_records endpoint base part.now at (length out.old) }
    ensures { Written endpoint_records endpoint base part.now at result out.old out.new }
{
    let Ok((id, c)) = endpoint_head(part, base) else {
        return Wrote { next: base, to: at };
    };
    let opened = c + 1;
    let wrote = write_parts(
        rest_at(part, base, opened),
        opened,
        out,
        at + ENDPOINT_BYTES,
    );
    put_endpoint(out, at, id);
    wrote
}
