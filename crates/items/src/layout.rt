// The numbers of documents 01 and 02: the kinds of records, the words that a record of each kind takes, the widths of values in a word, the text limit.
ghost use Rattle.std.specs.Prelude.{◌≡◌};
ghost use Rattle.items.specs.answers.{kind_number};

// The kinds of records.
#[derive(Clone, Copy, PartialEq, Eq)]
pub enum Kind {
    Cluster = 1,
    Enum = 2,
    Bitmap = 3,
    Entry = 4,
    Struct = 5,
    Field = 6,
    Attribute = 7,
    Command = 8,
    Event = 9,
    Endpoint = 10,
    DeviceType = 11,
    Binding = 12,
    Instantiation = 13,
    AttributeInstance = 14,
    CommandInstance = 15,
    EventInstance = 16,
    Annotation = 17,
}

impl Kind {
    pub fn number(self) -> u8
        ensures { result ≡ kind_number self }
    {
        self as u8
    }
}

// The kinds as bytes of a catalogue, which may be of no kind: what reads them back matches on constants.
pub const CLUSTER: u8 = Kind::Cluster as u8;

pub const ENUM: u8 = Kind::Enum as u8;

pub const BITMAP: u8 = Kind::Bitmap as u8;

pub const ENTRY: u8 = Kind::Entry as u8;

pub const STRUCT: u8 = Kind::Struct as u8;

pub const FIELD: u8 = Kind::Field as u8;

pub const ATTRIBUTE: u8 = Kind::Attribute as u8;

pub const COMMAND: u8 = Kind::Command as u8;

pub const EVENT: u8 = Kind::Event as u8;

pub const ENDPOINT: u8 = Kind::Endpoint as u8;

pub const DEVICE_TYPE: u8 = Kind::DeviceType as u8;

pub const ATTRIBUTE_INSTANCE: u8 = Kind::AttributeInstance as u8;

pub const ANNOTATION: u8 = Kind::Annotation as u8;

// The bytes of a word.
pub const WORD: usize = 8;

// The words of a record: the first ones, which every record has, and its further words.
pub const HEAD_WORDS: usize = 1;

pub const CLUSTER_WORDS: usize = HEAD_WORDS + 3;

pub const CHOICE_WORDS: usize = HEAD_WORDS + 2;

pub const ENTRY_WORDS: usize = HEAD_WORDS + 1;

pub const STRUCT_WORDS: usize = HEAD_WORDS + 2;

pub const FIELD_WORDS: usize = HEAD_WORDS + 3;

pub const ATTRIBUTE_WORDS: usize = HEAD_WORDS + 1;

pub const COMMAND_WORDS: usize = HEAD_WORDS + 4;

pub const EVENT_WORDS: usize = HEAD_WORDS + 2;

pub const ENDPOINT_WORDS: usize = HEAD_WORDS + 1;

pub const DEVICE_TYPE_WORDS: usize = HEAD_WORDS + 2;

pub const NAMED_WORDS: usize = HEAD_WORDS;

pub const ATTRIBUTE_INSTANCE_WORDS: usize = HEAD_WORDS + 1;

pub const ANNOTATION_WORDS: usize = HEAD_WORDS + 1;

// An attribute with its field.
pub const WHOLE_ATTRIBUTE_WORDS: usize = ATTRIBUTE_WORDS + FIELD_WORDS;

// The same in bytes.
pub const CLUSTER_BYTES: usize = WORD * CLUSTER_WORDS;

pub const CHOICE_BYTES: usize = WORD * CHOICE_WORDS;

pub const ENTRY_BYTES: usize = WORD * ENTRY_WORDS;

pub const STRUCT_BYTES: usize = WORD * STRUCT_WORDS;

pub const FIELD_BYTES: usize = WORD * FIELD_WORDS;

pub const ATTRIBUTE_BYTES: usize = WORD * ATTRIBUTE_WORDS;

pub const WHOLE_ATTRIBUTE_BYTES: usize = WORD * WHOLE_ATTRIBUTE_WORDS;

pub const COMMAND_BYTES: usize = WORD * COMMAND_WORDS;

pub const EVENT_BYTES: usize = WORD * EVENT_WORDS;

pub const ENDPOINT_BYTES: usize = WORD * ENDPOINT_WORDS;

pub const DEVICE_TYPE_BYTES: usize = WORD * DEVICE_TYPE_WORDS;

pub const NAMED_BYTES: usize = WORD * NAMED_WORDS;

pub const ATTRIBUTE_INSTANCE_BYTES: usize = WORD * ATTRIBUTE_INSTANCE_WORDS;

pub const ANNOTATION_BYTES: usize = WORD * ANNOTATION_WORDS;

// The first words and the doc comment's span, of a record that can have one.
pub const DOCUMENTED_BYTES: usize = WORD * (HEAD_WORDS + 1);

// One more than the largest offset or length in a word, and the longest text.
pub const OFFSETS: usize = 0x10_0000;

pub const TEXT_LIMIT: usize = OFFSETS - 1;

// The first word of a record: one of each value, from the top.
pub const KIND_UNIT: u64 = PLACE_UNIT * 4;

pub const PLACE_UNIT: u64 = MATURITY_UNIT * 4;

pub const MATURITY_UNIT: u64 = DOC_UNIT * 2;

pub const DOC_UNIT: u64 = FLAGS_UNIT * FLAGS;

pub const FLAGS_UNIT: u64 = NAME_UNIT * OFFSETS as u64;

pub const NAME_UNIT: u64 = LENGTH_UNIT * OFFSETS as u64;

pub const LENGTH_UNIT: u64 = FIRST_PRIVILEGE_UNIT * 4;

pub const FIRST_PRIVILEGE_UNIT: u64 = 4;

// One more than the largest value of the seven flags.
pub const FLAGS: u64 = 128;

// A span: one of its offset and one of its length.
pub const SPAN_OFFSET_UNIT: u64 = SPAN_LENGTH_UNIT * OFFSETS as u64;

pub const SPAN_LENGTH_UNIT: u64 = 0x100_0000;
