// Privileges, priorities and handlings, each by a keyword; and the access list of an event or a command.
ghost use Rattle.std.specs.Prelude.{◌≡◌, true, ◌+◌, ◌≤◌, ◌<◌, ◌-◌, length};
ghost use Rattle.lexing.specs.words.{is_key};
ghost use Rattle.lexing.specs.answers.{Skips};
ghost use Rattle.items.specs.layout.{text_limit};
ghost use Rattle.items.specs.members.{access_privilege, event_priority};
ghost use Rattle.items.specs.answers.{privilege_number, priority_number, handling_number};
ghost use Rattle.items.specs.inner.levels.{LevelTo, LevelBy, LevelAt, access_opening, colon_privilege, PrivilegeTo};
ghost use Rattle.items.specs.endpoints.{attribute_handling_type};

use lexing::answers::{Lost, Read, Step};
use lexing::bytes::lower_of;
use lexing::parts::{peek, rest_at};
use lexing::steps::{blank_at, tag_after};
use lexing::words::{keyword, tag};

// Who may do something, the least privileged first.
#[derive(Clone, Copy, PartialEq, Eq)]
pub enum Privilege {
    View = 0,
    Operate = 1,
    Manage = 2,
    Administer = 3,
}

impl Privilege {
    pub fn number(self) -> u8
        ensures value { result ≡ privilege_number self }
        ensures upper_bound { result < 4 }
    {
        self as u8
    }
}

// How urgent an event is, the most urgent first.
#[derive(Clone, Copy, PartialEq, Eq)]
pub enum Priority {
    Critical = 0,
    Info = 1,
    Debug = 2,
}

impl Priority {
    pub fn number(self) -> u8
        ensures value { result ≡ priority_number self }
        ensures upper_bound { result < 3 }
    {
        self as u8
    }
}

// How an attribute is held.
#[derive(Clone, Copy, PartialEq, Eq)]
pub enum Handling {
    Ram = 0,
    Callback = 1,
    Persist = 2,
}

impl Handling {
    pub fn number(self) -> u8
        ensures value { result ≡ handling_number self }
        ensures upper_bound { result < 3 }
    {
        self as u8
    }
}

// A keyword that stands for a level.
pub fn level_by<T: Copy>(part: &[u8], base: usize, key: &[u8], level: T) -> Read<T>
    requires part_bound { base + length part.now ≤ text_limit }
    requires key_value { is_key key.now ≡ true }
    ensures { LevelBy key.now level result base part.now }
{
    let Ok(c) = keyword(part, base, key) else {
        return Err(Lost::Fail(base));
    };
    Ok((level, c))
}

// The first letter selects one privilege.
pub fn access_privilege(part: &[u8], base: usize) -> Read<Privilege>
    requires { base + length part.now ≤ text_limit }
    ensures { LevelTo privilege_number access_privilege result base part.now }
{
    let x = lower_of(peek(part, 0));
    match x {
        b'v' => level_by(part, base, b"view", Privilege::View),
        b'o' => level_by(part, base, b"operate", Privilege::Operate),
        b'm' => level_by(part, base, b"manage", Privilege::Manage),
        b'a' => level_by(part, base, b"administer", Privilege::Administer),
        _ => Err(Lost::Fail(base)),
    }
}

// The first letter selects one priority.
pub fn event_priority(part: &[u8], base: usize) -> Read<Priority>
    requires { base + length part.now ≤ text_limit }
    ensures { LevelTo priority_number event_priority result base part.now }
{
    let x = lower_of(peek(part, 0));
    match x {
        b'i' => level_by(part, base, b"info", Priority::Info),
        b'c' => level_by(part, base, b"critical", Priority::Critical),
        b'd' => level_by(part, base, b"debug", Priority::Debug),
        _ => Err(Lost::Fail(base)),
    }
}

// The first letter selects one handling.
pub fn attribute_handling_type(part: &[u8], base: usize) -> Read<Handling>
    requires { base + length part.now ≤ text_limit }
    ensures { LevelTo handling_number attribute_handling_type result base part.now }
{
    let x = lower_of(peek(part, 0));
    match x {
        b'r' => level_by(part, base, b"ram", Handling::Ram),
        b'c' => level_by(part, base, b"callback", Handling::Callback),
        b'p' => level_by(part, base, b"persist", Handling::Persist),
        _ => Err(Lost::Fail(base)),
    }
}

// `access(`
pub fn access_opening(part: &[u8], base: usize) -> Step
    requires { base + length part.now ≤ text_limit }
    ensures { Skips access_opening result base part.now }
{
    let part = &part[..];
    // Read in place.
    let n = blank_at(part, base, base);
    let c = keyword(rest_at(part, base, n), n, b"access")?;
    tag_after(part, base, c, b'(')
}

// `: privilege`
pub fn colon_privilege(part: &[u8], base: usize, c: usize) -> Read<Privilege>
    requires { ((base ≤ c) × (c ≤ base + length part.now)) × (base + length part.now ≤ text_limit) }
    ensures { LevelAt privilege_number colon_privilege result base part.now c }
{
    let part = &part[..];
    let c1 = tag(rest_at(part, base, c), c, b':')?;
    let c2 = blank_at(part, base, c1);
    access_privilege(rest_at(part, base, c2), c2)
}

// `access(KEY: privilege)`, and the offset after it. Where it is not there whole, nothing is read, and the privilege is another.
pub fn access_to(part: &[u8], base: usize, key: &[u8], otherwise: Privilege) -> (Privilege, usize)
    requires part_bound { base + length part.now ≤ text_limit }
    requires key_value { is_key key.now ≡ true }
    ensures { PrivilegeTo key.now otherwise result base part.now }
{
    let part = &part[..];
    let absent = (otherwise, base);
    let Ok(c1) = access_opening(part, base) else {
        return absent;
    };
    let c2 = blank_at(part, base, c1);
    let Ok(c3) = keyword(rest_at(part, base, c2), c2, key) else {
        return absent;
    };
    let Ok((privilege, c4)) = colon_privilege(part, base, c3) else {
        return absent;
    };
    let Ok(next) = tag_after(part, base, c4, b')') else {
        return absent;
    };
    (privilege, next)
}
