// Kinds, references and refusals by number.
use answers::Refusal;
use block::Reference;
use forms::{DecoderInstruction, EncoderInstruction, HeaderBlockField, Kind};

static KINDS: [Kind; 12] = [
    Kind::Encoder(EncoderInstruction::Duplicate),
    Kind::Encoder(EncoderInstruction::DynamicTableSizeUpdate),
    Kind::Encoder(EncoderInstruction::InsertWithoutNameRef),
    Kind::Encoder(EncoderInstruction::InsertWithNameRef),
    Kind::Decoder(DecoderInstruction::InsertCountIncrement),
    Kind::Decoder(DecoderInstruction::StreamCancel),
    Kind::Decoder(DecoderInstruction::HeaderAck),
    Kind::Line(HeaderBlockField::LiteralWithPostBaseNameRef),
    Kind::Line(HeaderBlockField::IndexedWithPostBase),
    Kind::Line(HeaderBlockField::Literal),
    Kind::Line(HeaderBlockField::LiteralWithNameRef),
    Kind::Line(HeaderBlockField::Indexed),
];

static REFUSALS: [Refusal; 26] = [
    Refusal::UnexpectedEnd,
    Refusal::Overflow,
    Refusal::HuffmanString,
    Refusal::InvalidStaticIndex,
    Refusal::BadRelativeIndex,
    Refusal::BadPostbaseIndex,
    Refusal::BadIndex,
    Refusal::MaxTableSizeReached,
    Refusal::MaximumTableSizeTooLarge,
    Refusal::AboveLentRoom,
    Refusal::MaxBlockedStreamsTooLarge,
    Refusal::UnknownStreamId,
    Refusal::MissingRefs,
    Refusal::BadBaseIndex,
    Refusal::BadInsertCount,
    Refusal::BufSize,
    Refusal::ShrinkBlocked,
    Refusal::SectionOpen,
    Refusal::NoSection,
    Refusal::TrackingFull,
    Refusal::BadLargest,
    Refusal::BadCall,
    Refusal::CountTooLarge,
    Refusal::OutputFull,
    Refusal::HeaderTooLong,
    Refusal::InvalidPrefix,
];

// The kind with a number, 0 to 11.
pub fn kind_of(number: u64) -> Kind {
    KINDS[(number % 12) as usize]
}

// A kind's number, by its place on its stream: the decoder's come after the encoder's four, the lines' after those.
pub fn encoder_number(kind: EncoderInstruction) -> usize {
    kind as usize
}

pub fn decoder_number(kind: DecoderInstruction) -> usize {
    4 + kind as usize
}

pub fn line_number(kind: HeaderBlockField) -> usize {
    7 + kind as usize
}

// The refusal with a number, 1 to 26.
pub fn refusal_of(number: u64) -> Refusal {
    REFUSALS[(number.saturating_sub(1) % 26) as usize]
}

// The reference of a kind, 0 to 2, with an index. A match on the script's number: the enum is the library's, and holds the index.
pub fn reference_of(kind: u64, index: u64) -> Reference {
    match kind {
        0 => Reference::Static(index),
        1 => Reference::Relative(index),
        _ => Reference::PostBase(index),
    }
}
