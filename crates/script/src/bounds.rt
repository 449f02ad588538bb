// What a command's numbers must stay within.
use crate::calls::{LookCall, Opcode, PartChange};
use crate::faults::Fault;
use crate::input::{ARENA, Command};

// The bound of a command's first number.
#[derive(Clone, Copy)]
pub enum Bound {
    Any,
    Field,
    Place,
    Table,
    Kind,
    Reference,
    Records,
    Push,
    Bytes,
    Refusal,
}

impl Bound {
    pub fn holds(self, number: u64) -> bool {
        match self {
            Bound::Any => true,
            Bound::Field => number < 28,
            Bound::Place => number <= ARENA as u64,
            Bound::Table => number < 4,
            Bound::Kind => number < 12,
            Bound::Reference => number < 3,
            Bound::Records => number <= 1024,
            Bound::Push => number < 5,
            Bound::Bytes => number <= 65536,
            Bound::Refusal => (1..=26).contains(&number),
        }
    }
}

// A field of the record.
#[derive(Clone, Copy)]
pub enum Field {
    Inserted,
    Dropped,
    Size,
    Capacity,
    Tail,
    Head,
    Starts,
    Names,
    Values,
    Known,
    Most,
    Total,
    Distinct,
    Largest,
    Sections,
    Queued,
    PlaceStream,
    PlaceFrom,
    PlaceUsed,
    PlaceOffset,
    PlaceCount,
    Active,
    Base,
    OpenStream,
    OpenFrom,
    OpenUsed,
    OpenOffset,
    OpenCount,
}

// The fields by number, each with how many elements it has.
static FIELDS: [(Field, u64); 28] = [
    (Field::Inserted, 1),
    (Field::Dropped, 1),
    (Field::Size, 1),
    (Field::Capacity, 1),
    (Field::Tail, 1),
    (Field::Head, 1),
    (Field::Starts, 512),
    (Field::Names, 512),
    (Field::Values, 512),
    (Field::Known, 1),
    (Field::Most, 1),
    (Field::Total, 1),
    (Field::Distinct, 1),
    (Field::Largest, 64),
    (Field::Sections, 64),
    (Field::Queued, 1),
    (Field::PlaceStream, QUEUE_PLACES),
    (Field::PlaceFrom, QUEUE_PLACES),
    (Field::PlaceUsed, QUEUE_PLACES),
    (Field::PlaceOffset, 1024),
    (Field::PlaceCount, 1024),
    (Field::Active, 1),
    (Field::Base, 1),
    (Field::OpenStream, 1),
    (Field::OpenFrom, 1),
    (Field::OpenUsed, 1),
    (Field::OpenOffset, 32),
    (Field::OpenCount, 32),
];

const QUEUE_PLACES: u64 = 32;

// The field with a number, where it has an element with an index.
pub fn field_of(number: u64, index: u64) -> Result<Field, Fault> {
    match FIELDS.get(number as usize) {
        Some(&(field, elements)) if index < elements => Ok(field),
        _ => Err(Fault::PastField),
    }
}

fn within(ok: bool, fault: Fault) -> Result<(), Fault> {
    if ok { Ok(()) } else { Err(fault) }
}

// A stretch of an arena.
fn in_arena(at: u64, len: u64) -> Result<(), Fault> {
    let fits = at.checked_add(len).is_some_and(|end| end <= ARENA as u64);
    within(fits, Fault::PastArena)
}

// A command on the record's fields or on the arena's bytes, once its strings are there.
pub fn check(c: &Command) -> Result<(), Fault> {
    let [first, second, ..] = c.numbers;
    match c.opcode {
        Opcode::SetField => field_of(first, second).map(|_| ()),
        Opcode::Look(LookCall::WriteArena) => in_arena(first, c.name.len() as u64),
        Opcode::Look(LookCall::ReadArena) => in_arena(first, second),
        Opcode::Change(PartChange::WithUses) => within(first < QUEUE_PLACES, Fault::LargeNumber),
        _ => Ok(()),
    }
}
