// Sections, RFC 9204 4.5: read on a table, or with none, into a lent list of records and a lent buffer.
#![tactic(auto)]

ghost use Rattle.std.specs.Prelude.{◌≡◌};
ghost use Rattle.section_steps.specs.declared.Field.{Field};
ghost use Rattle.decoder.specs.Section.{on_table, stateless, section_of, read_all, numbers};

use answers::Refusal;
use dynamic::Table;
pub use section_steps::{Cursor, Decoded, Field, Line, MaxSize, next_on, next_stateless};
use section_steps::{begin, begin_on, line_on};

// The form of a record in a lent list.
trait Record: Copy {
    ghost make: { Field → Self };

    fn of(field: Field) -> Self
        ensures { result ≡ make field };
}

impl Record for Field {
    ghost make = { λ f. f };

    fn of(field: Field) -> Field {
        field
    }
}

// Three numbers: where a field's bytes start, and how many its name and its value have.
impl Record for [usize; 3] {
    ghost make = { numbers };

    fn of(field: Field) -> [usize; 3] {
        [field.start, field.name, field.value]
    }
}

// A section on a table.
fn section_on<R: Record>(
    s: &[u8],
    arena: &[u8],
    table: &Table,
    fields: &mut [R],
    out: &mut [u8],
) -> Decoded
    ensures { section_of result fields.new out.new ≡ read_all R.make (on_table table.now arena.now) s.now fields.old out.old }
{
    let mut c = match begin_on(s, arena, table, begin()) {
        Err(why) => return begin().decoded(Err(why)),
        Ok(first) => first,
    };
    let room = fields.len();
    loop {
        match line_on(s, arena, &table.ring, room, out, c) {
            Line::Ended(reply, last) => return last.decoded(reply),
            Line::Found(field, next) => {
                fields[c.count] = R::of(field);
                c = next;
            }
        }
    }
}

// A section with no table. One loop over the step of each would say the step's promise again for a closure: no plainer.
fn section_without<R: Record>(s: &[u8], max: MaxSize, fields: &mut [R], out: &mut [u8]) -> Decoded
    ensures { section_of result fields.new out.new ≡ read_all R.make (stateless max.bytes) s.now fields.old out.old }
{
    let mut c = begin();
    let room = fields.len();
    loop {
        match next_stateless(s, max, room, out, c) {
            Line::Ended(reply, last) => return last.decoded(reply),
            Line::Found(field, next) => {
                fields[c.count] = R::of(field);
                c = next;
            }
        }
    }
}

// The four names stay: C lends records as three numbers each, and whoever decodes in Rattle lends a list of `Field`.

// A section on a table, its records as three numbers each.
pub fn read_on(
    s: &[u8],
    arena: &[u8],
    table: &Table,
    fields: &mut [[usize; 3]],
    out: &mut [u8],
) -> Decoded
    ensures { section_of result fields.new out.new ≡ read_all numbers (on_table table.now arena.now) s.now fields.old out.old }
{
    section_on(s, arena, table, fields, out)
}

// A section with no table, its records as three numbers each.
pub fn read_stateless(s: &[u8], max: MaxSize, fields: &mut [[usize; 3]], out: &mut [u8]) -> Decoded
    ensures { section_of result fields.new out.new ≡ read_all numbers (stateless max.bytes) s.now fields.old out.old }
{
    section_without(s, max, fields, out)
}

// A section on a table, its records in a lent list.
pub fn decode_header(
    s: &[u8],
    arena: &[u8],
    table: &Table,
    fields: &mut [Field],
    out: &mut [u8],
) -> Decoded
    ensures { section_of result fields.new out.new ≡ read_all (λ f. f) (on_table table.now arena.now) s.now fields.old out.old }
{
    section_on(s, arena, table, fields, out)
}

// A section with no table, its records in a lent list.
pub fn decode_stateless(s: &[u8], max: MaxSize, fields: &mut [Field], out: &mut [u8]) -> Decoded
    ensures { section_of result fields.new out.new ≡ read_all (λ f. f) (stateless max.bytes) s.now fields.old out.old }
{
    section_without(s, max, fields, out)
}
