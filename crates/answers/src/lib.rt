// What the desk answers: the refusals of the specification by name, and each name's number.
#![tactic(auto)]

ghost use Rattle.std.specs.Prelude.{◌≡◌};
ghost use Rattle.answers.specs.Answer.{answered, answered_or_cut, number_of, ends_early, cut_short};

// The rows 1 to 26, in their order. Row 0 is no refusal: it is the Ok of a call's Result, with its values.
#[derive(Clone, Copy, PartialEq, Eq, Debug)]
pub enum Refusal {
    UnexpectedEnd,
    Overflow,
    HuffmanString,
    InvalidStaticIndex,
    BadRelativeIndex,
    BadPostbaseIndex,
    BadIndex,
    MaxTableSizeReached,
    MaximumTableSizeTooLarge,
    AboveLentRoom,
    MaxBlockedStreamsTooLarge,
    UnknownStreamId,
    MissingRefs,
    BadBaseIndex,
    BadInsertCount,
    BufSize,
    ShrinkBlocked,
    SectionOpen,
    NoSection,
    TrackingFull,
    BadLargest,
    BadCall,
    CountTooLarge,
    OutputFull,
    HeaderTooLong,
    InvalidPrefix,
}

// A refusal's number, under the name by which the pages and the scripts ask for it.
pub fn number(r: Refusal) -> u8
    ensures { result ≡ number_of r }
{
    match r {
        Refusal::UnexpectedEnd => 1,
        Refusal::Overflow => 2,
        Refusal::HuffmanString => 3,
        Refusal::InvalidStaticIndex => 4,
        Refusal::BadRelativeIndex => 5,
        Refusal::BadPostbaseIndex => 6,
        Refusal::BadIndex => 7,
        Refusal::MaxTableSizeReached => 8,
        Refusal::MaximumTableSizeTooLarge => 9,
        Refusal::AboveLentRoom => 10,
        Refusal::MaxBlockedStreamsTooLarge => 11,
        Refusal::UnknownStreamId => 12,
        Refusal::MissingRefs => 13,
        Refusal::BadBaseIndex => 14,
        Refusal::BadInsertCount => 15,
        Refusal::BufSize => 16,
        Refusal::ShrinkBlocked => 17,
        Refusal::SectionOpen => 18,
        Refusal::NoSection => 19,
        Refusal::TrackingFull => 20,
        Refusal::BadLargest => 21,
        Refusal::BadCall => 22,
        Refusal::CountTooLarge => 23,
        Refusal::OutputFull => 24,
        Refusal::HeaderTooLong => 25,
        Refusal::InvalidPrefix => 26,
    }
}

// Whether a refusal is that the bytes end early.
pub fn ends_early(r: Refusal) -> bool
    ensures { result ≡ ends_early r }
{
    matches!(r, Refusal::UnexpectedEnd)
}

// What a reader of one instruction answers: one that is cut is left unread and is no refusal.
pub fn cut_short<T>(read: Result<T, Refusal>) -> Result<Option<T>, Refusal>
    ensures { answered_or_cut result ≡ cut_short (answered read) }
{
    match read {
        Ok(whole) => Ok(Some(whole)),
        Err(why) => {
            if ends_early(why) {
                return Ok(None);
            }
            Err(why)
        }
    }
}

// Where a search found a name or a field: in the static table, or in the dynamic one below the section's base or above it.
#[derive(Clone, Copy)]
pub enum Lookup {
    Static(usize),
    Relative { index: usize, absolute: usize },
    PostBase { index: usize, absolute: usize },
    NotFound,
}

// What an insertion did: how the new entry is written, or what names it where it was not made.
#[derive(Clone, Copy)]
pub enum Insertion {
    Inserted {
        postbase: usize,
        absolute: usize,
    },
    Duplicated {
        relative: usize,
        postbase: usize,
        absolute: usize,
    },
    InsertedWithNameRef {
        postbase: usize,
        relative: usize,
        absolute: usize,
    },
    InsertedWithStaticNameRef {
        postbase: usize,
        index: usize,
        absolute: usize,
    },
    NotInserted(Lookup),
}
