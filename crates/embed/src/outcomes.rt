// What leaves the library: a table with an answer as the specification's number, and its values beside it.
ghost use Rattle.std.specs.Prelude.{◌≡◌};
ghost use Rattle.embed.specs.Outcomes as spec;

use answers::{Insertion, Lookup, Refusal};
use decoder::Decoded;
use dynamic::{Inserting, Looked, Replied, Table};

// A table and a call's answer, 0 for done.
#[repr(C)]
#[derive(Clone, Copy)]
pub struct Outcome {
    pub table: Table,
    pub answer: u8,
}

// What a find or an insert found or made: its kind, and the values that the kind has; the others are 0.
// A number and no enum, and no Option: C reads this layout.
#[repr(C)]
#[derive(Clone, Copy)]
pub struct Named {
    pub index: usize,
    pub postbase: usize,
    pub absolute: usize,
    pub kind: u8,
}

// A table, and the answer of a find or an insert.
#[repr(C)]
#[derive(Clone, Copy)]
pub struct NamedOutcome {
    pub table: Table,
    pub named: Named,
    pub answer: u8,
}

// A table, the bytes consumed, the total inserted, the bytes written, and the answer.
#[repr(C)]
#[derive(Clone, Copy)]
pub struct EncoderOutcome {
    pub table: Table,
    pub consumed: usize,
    pub inserted: usize,
    pub written: usize,
    pub answer: u8,
}

// A table, the bytes consumed, and the answer.
#[repr(C)]
#[derive(Clone, Copy)]
pub struct DecoderOutcome {
    pub table: Table,
    pub consumed: usize,
    pub answer: u8,
}

// How many records and bytes were stored, the size sum, whether the required count was above 0, and the answer; as C has them.
#[repr(C)]
#[derive(Clone, Copy)]
pub struct SectionOutcome {
    pub count: usize,
    pub used: usize,
    pub size: usize,
    pub dynamic: bool,
    pub answer: u8,
}

pub fn reply_number(reply: Result<(), Refusal>) -> u8
    ensures { result ≡ spec.reply_number reply }
{
    match reply {
        Ok(()) => 0,
        Err(why) => answers::number(why),
    }
}

impl From<Replied> for Outcome {
    ghost from_gives = { λ r x. x ≡ spec.outcome_of r };

    #[inline(always)]
    fn from(r: Replied) -> Outcome {
        Outcome {
            table: r.table,
            answer: reply_number(r.reply),
        }
    }
}

pub fn naming(kind: u8, index: usize, postbase: usize, absolute: usize) -> Named
    ensures { result ≡ spec.named kind index postbase absolute }
{
    Named {
        index,
        postbase,
        absolute,
        kind,
    }
}

impl From<Lookup> for Named {
    ghost from_gives = { λ l x. x ≡ spec.lookup_named l };

    fn from(lookup: Lookup) -> Named {
        match lookup {
            Lookup::NotFound => naming(0, 0, 0, 0),
            Lookup::Static(index) => naming(1, index, 0, 0),
            Lookup::Relative { index, absolute } => naming(2, index, 0, absolute),
            Lookup::PostBase { index, absolute } => naming(3, index, 0, absolute),
        }
    }
}

impl From<Insertion> for Named {
    ghost from_gives = { λ i x. x ≡ spec.insertion_named i };

    fn from(insertion: Insertion) -> Named {
        match insertion {
            Insertion::Inserted { postbase, absolute } => naming(4, 0, postbase, absolute),
            Insertion::Duplicated {
                relative,
                postbase,
                absolute,
            } => naming(5, relative, postbase, absolute),
            Insertion::InsertedWithNameRef {
                postbase,
                relative,
                absolute,
            } => naming(6, relative, postbase, absolute),
            Insertion::InsertedWithStaticNameRef {
                postbase,
                index,
                absolute,
            } => naming(7, index, postbase, absolute),
            Insertion::NotInserted(lookup) => Named::from(lookup),
        }
    }
}

fn named_outcome(table: Table, named: Result<Named, Refusal>) -> NamedOutcome
    ensures { result ≡ spec.named_outcome table named }
{
    match named {
        Ok(named) => NamedOutcome {
            table,
            named,
            answer: 0,
        },
        Err(why) => NamedOutcome {
            table,
            named: naming(0, 0, 0, 0),
            answer: answers::number(why),
        },
    }
}

impl From<Looked> for NamedOutcome {
    ghost from_gives = { λ r x. x ≡ spec.looked_of r };

    fn from(r: Looked) -> NamedOutcome {
        named_outcome(r.table, r.found.map(Named::from))
    }
}

impl From<Inserting> for NamedOutcome {
    ghost from_gives = { λ r x. x ≡ spec.inserting_of r };

    fn from(r: Inserting) -> NamedOutcome {
        named_outcome(r.table, r.inserted.map(Named::from))
    }
}

impl From<Decoded> for SectionOutcome {
    ghost from_gives = { λ d x. x ≡ spec.decoded_of d };

    fn from(d: Decoded) -> SectionOutcome {
        SectionOutcome {
            count: d.count,
            used: d.used,
            size: d.size,
            dynamic: d.dynamic,
            answer: reply_number(d.reply),
        }
    }
}
