// Cluster instantiations and the instances in them.
ghost use Rattle.std.specs.Prelude.{◌≡◌, [], ◌∷◌, map, ◌+◌, ◌≤◌, ◌<◌, length};
ghost use Rattle.lexing.specs.bytes.{ascii};
ghost use Rattle.lexing.specs.answers.{NameIn};
ghost use Rattle.items.specs.layout.{text_limit, layout, catalogue_bytes};
ghost use Rattle.lexing.specs.buffers.{put};
ghost use Rattle.items.specs.records.{instance_record, part_records, attribute_instance_kind, binding_kind};
ghost use Rattle.items.specs.clusters.{mapped};
ghost use Rattle.lexing.specs.names.{named_after};
ghost use Rattle.lexing.specs.answers.names.{NamedTo};
ghost use Rattle.items.specs.endpoints.{deep_braces, command_instance, event_instance, instance_tries, instantiation, instantiation_head, cluster_instantiation};
ghost use Rattle.items.specs.answers.{CountTo, Room, Written, kind_number};
ghost use Rattle.items.specs.inner.instances.{InstanceIn, AttributeInstanceTo, named_instance, InstanceAs, InstanceTo, TriedTo, deep_rest, plain_word, name_parts, instance_parts};
ghost use Rattle.items.specs.inner.writing.{room_for};

use crate::defaults::{DefaultValue, default_number, default_word, optional_default};
use crate::layout::{
    ATTRIBUTE_INSTANCE_BYTES, ATTRIBUTE_INSTANCE_WORDS, Kind, NAMED_BYTES, NAMED_WORDS,
};
use crate::levels::{Handling, Privilege, attribute_handling_type};
use crate::maturity::Maturity;
use crate::writing::{First, Wrote, first_word};
use lexing::answers::Read;
use lexing::buffers::{put_word, put_words};
use lexing::bytes::lower_of;
use lexing::names::{Named, keyword_name, named_after, two_keywords_name};
use lexing::parts::{peek, rest_at};
use lexing::steps::{blank_at, gap_at, tag_after};
use lexing::words::tag;

// An instance of an attribute: where its name starts and ends, its default, its handling.
#[derive(Clone, Copy)]
pub struct AttributeInstanceParts {
    pub name: usize,
    pub default: DefaultValue,
    pub end: usize,
    pub handling: Handling,
}

// An instance: that of an attribute, or of a command or an event, by the kind of its record and its name.
#[derive(Clone, Copy)]
pub enum AnyInstance {
    Attribute(AttributeInstanceParts),
    Named(Kind, Named),
}

pub fn attribute_instantiation(part: &[u8], base: usize) -> Read<AttributeInstanceParts>
    requires { base + length part.now ≤ text_limit }
    ensures { AttributeInstanceTo result base part.now }
{
    let (handling, c1) = attribute_handling_type(part, base)?;
    let c2 = gap_at(part, base, c1)?;
    let (named, c3) = keyword_name(rest_at(part, base, c2), c2, b"attribute")?;
    let (default, c4) = optional_default(rest_at(part, base, c3), c3)?;
    let c5 = tag_after(part, base, c4, b';')?;
    let a = AttributeInstanceParts {
        handling,
        name: named.start,
        end: named.end,
        default,
    };
    Ok((a, c5))
}

// An instance of a command or of an event, by the kind of its record.
fn named_instance(kind: Kind, r: Read<Named>) -> Read<AnyInstance>
    ensures { result ≡ named_instance kind r }
{
    let (named, c) = r?;
    Ok((AnyInstance::Named(kind, named), c))
}

fn command_instance(part: &[u8], base: usize) -> Read<AnyInstance>
    requires { base + length part.now ≤ text_limit }
    ensures { InstanceAs (mapped (named_after (ascii "handle") (ascii "command")) command_instance) result base part.now }
{
    named_instance(
        Kind::CommandInstance,
        named_after(part, base, b"handle", b"command"),
    )
}

fn event_instance(part: &[u8], base: usize) -> Read<AnyInstance>
    requires { base + length part.now ≤ text_limit }
    ensures { InstanceAs (mapped (named_after (ascii "emits") (ascii "event")) event_instance) result base part.now }
{
    named_instance(
        Kind::EventInstance,
        named_after(part, base, b"emits", b"event"),
    )
}

// An instance, most often that of an attribute. Where it is none, its first letter selects one try, and the others fail at their start.
fn instance(part: &[u8], base: usize) -> Read<AnyInstance>
    requires { base + length part.now ≤ text_limit }
    ensures { InstanceTo result base part.now }
{
    let part = &part[..];
    match attribute_instantiation(part, base) {
        Ok((a, c)) => Ok((AnyInstance::Attribute(a), c)),
        Err(l) => match lower_of(peek(part, 0)) {
            b'h' => command_instance(part, base),
            b'e' => event_instance(part, base),
            _ => Err(l),
        },
    }
}

// The first pass over an instance: that of an attribute takes two words, the others one.
fn count_instance(part: &[u8], base: usize) -> Read<usize>
    requires { base + length part.now ≤ text_limit }
    ensures { TriedTo (λ i. instance_record i ∷ []) instance_tries result base part.now }
{
    let (instance, c) = instance(part, base)?;
    match instance {
        AnyInstance::Attribute(_) => Ok((ATTRIBUTE_INSTANCE_WORDS, c)),
        AnyInstance::Named(_, _) => Ok((NAMED_WORDS, c)),
    }
}

// The first pass over instances after their opening brace, up to the closing one: where that is not there, there is one more of them.
fn count_instances(part: &[u8], base: usize) -> Read<usize>
    requires { base + length part.now ≤ text_limit }
    ensures { CountTo (map instance_record) (deep_rest instance_tries) result base part.now }
{
    let mut c = base;
    let mut n = 0;
    loop {
        let start = blank_at(part, base, c);
        let rest = rest_at(part, base, start);
        if let Ok(end) = tag(rest, start, b'}') {
            return Ok((n, end));
        }
        let (k, next) = count_instance(rest, start)?;
        c = next;
        n += k;
    }
}

// The first pass over the instances between braces.
fn count_braced_instances(part: &[u8], base: usize) -> Read<usize>
    requires { base + length part.now ≤ text_limit }
    ensures { CountTo (map instance_record) (deep_braces instance_tries) result base part.now }
{
    let c = tag(part, base, b'{')?;
    count_instances(rest_at(part, base, c), c)
}

// A cluster instantiation up to its instances: its name.
pub fn instantiation_head(part: &[u8], base: usize) -> Read<Named>
    requires { base + length part.now ≤ text_limit }
    ensures { NamedTo instantiation_head result base part.now }
{
    let part = &part[..];
    let c1 = blank_at(part, base, base);
    let (named, c2) = two_keywords_name(rest_at(part, base, c1), c1, b"server", b"cluster")?;
    let c3 = blank_at(part, base, c2);
    Ok((named, c3))
}

// The first pass over a cluster instantiation: one word, and those of its instances.
pub fn count_cluster_instantiation(part: &[u8], base: usize) -> Read<usize>
    requires { base + length part.now ≤ text_limit }
    ensures { CountTo (λ i. part_records (instantiation i)) cluster_instantiation result base part.now }
{
    let (_, c1) = instantiation_head(part, base)?;
    let (n, c2) = count_braced_instances(rest_at(part, base, c1), c1)?;
    Ok((n + NAMED_WORDS, c2))
}

// The first word of a record that has only a kind, flags and a name.
pub fn plain_word(kind: Kind, flags: u8, name: Named) -> u64
    requires flags_bound { flags < 128 }
    requires name_in { NameIn 0 name.start name.end text_limit }
    ensures { result ≡ plain_word kind flags name.start name.end }
{
    let first = First {
        kind: kind.number(),
        place: 0,
        maturity: Maturity::Stable,
        doc_present: 0,
        flags,
        name: name.start,
        name_length: name.end - name.start,
        first_privilege: Privilege::View,
        second_privilege: Privilege::View,
    };
    first_word(first)
}

// A record that is a name: a binding, an instantiation, an instance of a command or of an event.
pub fn put_named(out: &mut [u8], at: usize, kind: Kind, name: Named)
    requires binding_kind_in_bounds { at + room_for binding_kind ≤ length out.old }
    requires name_in { NameIn 0 name.start name.end text_limit }
    ensures { out.new ≡ put at (catalogue_bytes layout (name_parts (kind_number kind) name.start name.end ∷ [])) out.old }
{
    put_word(out, at, plain_word(kind, 0, name));
}

// The record of an attribute's instance.
fn put_attribute_instance(out: &mut [u8], at: usize, a: AttributeInstanceParts)
    requires attribute_instance_kind_in_bounds { at + room_for attribute_instance_kind ≤ length out.old }
    requires instance_in { InstanceIn 0 a text_limit }
    ensures { out.new ≡ put at (catalogue_bytes layout (instance_parts a ∷ [])) out.old }
{
    let default = a.default;
    let flags = a.handling.number() * 32 + default_number(default) * 4;
    let name = Named {
        start: a.name,
        end: a.end,
    };
    let word = plain_word(Kind::AttributeInstance, flags, name);
    put_words(out, at, [word, default_word(default)]);
}

// The second pass over an instance.
fn write_instance(part: &[u8], base: usize, out: &mut [u8], at: usize) -> Wrote
    requires part_bound { base + length part.now ≤ text_limit }
    requires room { Room (λ t. instance_record t.value ∷ []) (instance_tries base) base part.now at (length out.old) }
    ensures { Written (λ t. instance_record t.value ∷ []) (instance_tries base) base part.now at result out.old out.new }
{
    match instance(part, base) {
        Ok((AnyInstance::Attribute(a), next)) => {
            put_attribute_instance(out, at, a);
            Wrote {
                next,
                to: at + ATTRIBUTE_INSTANCE_BYTES,
            }
        }
        Ok((AnyInstance::Named(kind, name), next)) => {
            put_named(out, at, kind, name);
            Wrote {
                next,
                to: at + NAMED_BYTES,
            }
        }
        Err(_) => Wrote { next: base, to: at },
    }
}

// The second pass over instances after their opening brace, up to the closing one: where that is not there, there is one more of them.
fn write_instances(part: &[u8], base: usize, out: &mut [u8], at: usize) -> Wrote
    requires part_bound { base + length part.now ≤ text_limit }
    requires room { Room (map instance_record) (deep_rest instance_tries) base part.now at (length out.old) }
    ensures { Written (map instance_record) (deep_rest instance_tries) base part.now at result out.old out.new }
{
    let mut c = base;
    let mut to = at;
    loop {
        let start = blank_at(part, base, c);
        let rest = rest_at(part, base, start);
        if let Ok(end) = tag(rest, start, b'}') {
            return Wrote { next: end, to };
        }
        let wrote = write_instance(rest, start, out, to);
        c = wrote.next;
        to = wrote.to;
    }
}

// The second pass over a cluster instantiation: after its head is the opening brace.
pub fn write_cluster_instantiation(part: &[u8], base: usize, out: &mut [u8], at: usize) -> Wrote
    requires part_bound { base + length part.now ≤ text_limit }
    requires room { Room (λ i. part_records (instantiation i)) cluster_instantiation base part.now at (length out.old) }
    ensures { Written (λ i. part_records (instantiation i)) cluster_instantiation base part.now at result out.old out.new }
{
    let Ok((name, c)) = instantiation_head(part, base) else {
        return Wrote { next: base, to: at };
    };
    let opened = c + 1;
    let wrote = write_instances(rest_at(part, base, opened), opened, out, at + NAMED_BYTES);
    put_named(out, at, Kind::Instantiation, name);
    wrote
}
