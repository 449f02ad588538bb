// The forms of RFC 9204 4.3, 4.4 and 4.5: one table of pattern, mask and width, and the kind that a first byte has.
#![tactic(auto)]

ghost use Rattle.std.specs.Prelude.{◌≡◌, ◌<◌};
ghost use Rattle.forms.specs.Forms.{form_of, row_of, head_of, encoder_kind, decoder_kind, line_kind};

// The encoder's four instructions, 4.3.
#[derive(Clone, Copy)]
pub enum EncoderInstruction {
    Duplicate,
    DynamicTableSizeUpdate,
    InsertWithoutNameRef,
    InsertWithNameRef,
}

// The decoder's three instructions, 4.4.
#[derive(Clone, Copy)]
pub enum DecoderInstruction {
    InsertCountIncrement,
    StreamCancel,
    HeaderAck,
}

// The five field lines, 4.5.
#[derive(Clone, Copy)]
pub enum HeaderBlockField {
    LiteralWithPostBaseNameRef,
    IndexedWithPostBase,
    Literal,
    LiteralWithNameRef,
    Indexed,
}

// What a first byte can begin.
#[derive(Clone, Copy)]
pub enum Kind {
    Encoder(EncoderInstruction),
    Decoder(DecoderInstruction),
    Line(HeaderBlockField),
}

// A first byte of a kind has the pattern under the mask; its integer's prefix has width bits.
#[derive(Clone, Copy)]
pub struct Form {
    pub pattern: u8,
    pub mask: u8,
    pub width: u8,
}

// The width of a first integer, and the flags above it.
#[derive(Clone, Copy)]
pub struct Head {
    pub width: u32,
    pub flags: u8,
}

// Pattern, mask and width for each kind, in their order: a constant array of bytes is a form that the user names.
const FORMS: [u8; 36] = [
    // Duplicate
    0b00000000, 0b11100000, 5,
    // DynamicTableSizeUpdate
    0b00100000, 0b11100000, 5,
    // InsertWithoutNameRef
    0b01000000, 0b11000000, 5,
    // InsertWithNameRef
    0b10000000, 0b10000000, 6,
    // InsertCountIncrement
    0b00000000, 0b11000000, 6,
    // StreamCancel
    0b01000000, 0b11000000, 6,
    // HeaderAck
    0b10000000, 0b10000000, 7,
    // LiteralWithPostBaseNameRef
    0b00000000, 0b11110000, 3,
    // IndexedWithPostBase
    0b00010000, 0b11110000, 4,
    // Literal
    0b00100000, 0b11100000, 3,
    // LiteralWithNameRef
    0b01000000, 0b11000000, 4,
    // Indexed
    0b10000000, 0b10000000, 6,
];

// The place of a kind among the twelve, in that array.
fn row(kind: Kind) -> usize
    ensures { (result ≡ row_of kind) × (result < 12) }
{
    match kind {
        Kind::Encoder(k) => match k {
            EncoderInstruction::Duplicate => 0,
            EncoderInstruction::DynamicTableSizeUpdate => 1,
            EncoderInstruction::InsertWithoutNameRef => 2,
            EncoderInstruction::InsertWithNameRef => 3,
        },
        Kind::Decoder(k) => match k {
            DecoderInstruction::InsertCountIncrement => 4,
            DecoderInstruction::StreamCancel => 5,
            DecoderInstruction::HeaderAck => 6,
        },
        Kind::Line(k) => match k {
            HeaderBlockField::LiteralWithPostBaseNameRef => 7,
            HeaderBlockField::IndexedWithPostBase => 8,
            HeaderBlockField::Literal => 9,
            HeaderBlockField::LiteralWithNameRef => 10,
            HeaderBlockField::Indexed => 11,
        },
    }
}

// The form of a kind.
pub fn form_of(kind: Kind) -> Form
    ensures { result ≡ form_of kind }
{
    let at = row(kind) * 3;
    Form {
        pattern: FORMS[at],
        mask: FORMS[at + 1],
        width: FORMS[at + 2],
    }
}

// What a writer of a kind gives to its first integer: the lowest flag is T, where the kind has one.
pub fn head_of(kind: Kind, lowest: bool) -> Head
    ensures { result ≡ head_of kind lowest }
{
    let form = form_of(kind);
    let width = form.width as u32;
    let flags = form.pattern >> form.width;
    if lowest {
        return Head {
            width,
            flags: flags + 1,
        };
    }
    Head { width, flags }
}

// The encoder's instruction that a first byte begins.
pub fn encoder_kind(first: u8) -> EncoderInstruction
    ensures { result ≡ encoder_kind first }
{
    match first {
        0..=31 => EncoderInstruction::Duplicate,
        32..=63 => EncoderInstruction::DynamicTableSizeUpdate,
        64..=127 => EncoderInstruction::InsertWithoutNameRef,
        128..=255 => EncoderInstruction::InsertWithNameRef,
    }
}

// The decoder's instruction that a first byte begins.
pub fn decoder_kind(first: u8) -> DecoderInstruction
    ensures { result ≡ decoder_kind first }
{
    match first {
        0..=63 => DecoderInstruction::InsertCountIncrement,
        64..=127 => DecoderInstruction::StreamCancel,
        128..=255 => DecoderInstruction::HeaderAck,
    }
}

// The field line that a first byte begins.
pub fn line_kind(first: u8) -> HeaderBlockField
    ensures { result ≡ line_kind first }
{
    match first {
        0..=15 => HeaderBlockField::LiteralWithPostBaseNameRef,
        16..=31 => HeaderBlockField::IndexedWithPostBase,
        32..=63 => HeaderBlockField::Literal,
        64..=127 => HeaderBlockField::LiteralWithNameRef,
        128..=255 => HeaderBlockField::Indexed,
    }
}
