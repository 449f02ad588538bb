// Sections, read on a table or with none, into records and a buffer.
ghost use Rattle.std.specs.Prelude.{◌≤◌};

use decoder::{Decoded, Field, MaxSize};
use dynamic::Table;
use listed::{Listed, RECORDS};
use script::answer::Answer;
use script::input::Command;
use script::text::Trimmed;
use script::values;
use std::io::Write;
use std::{fmt, io};

// The records that were lent, each of them three times the fill byte before the call: where its bytes start, and how many its name and its value have.
#[derive(Clone, Copy)]
struct Records<'a> {
    lent: &'a [[usize; 3]],
    fill: usize,
}

impl fmt::Display for Records<'_> {
    fn fmt<W: fmt::Write>(&self, f: &mut fmt::Formatter<W>) -> fmt::Result {
        let shown = Trimmed::new(self.lent, &[self.fill; 3]);
        write!(f, " records")?;
        for [start, name, value] in shown.kept {
            write!(f, " {start}:{name}:{value}")?;
        }
        write!(f, "{}", shown.rest)
    }
}

fn fill_of(c: &Command) -> usize {
    usize::from(c.fill.unwrap_or(0))
}

// How many records a command lends.
fn count_of(c: &Command) -> usize
    ensures { result ≤ 1024 }
{
    RECORDS.min(c.numbers[0] as usize)
}

fn max_of(c: &Command) -> MaxSize {
    MaxSize {
        bytes: c.numbers[1] as usize,
    }
}

// Writes a section's answer, its numbers and the lent records.
fn tell<W: Write>(
    c: &Command,
    section: Decoded,
    lent: &[[usize; 3]],
    out: &mut W,
) -> io::Result<()> {
    let answer = Answer {
        reply: section.reply,
        values: values![section.dynamic, section.count, section.used, section.size],
    };
    let records = Records {
        lent,
        fill: fill_of(c),
    };
    write!(out, "{answer}{records}")
}

pub fn on_table<W: Write>(
    c: &Command,
    table: &Table,
    arena: &[u8],
    buffer: &mut [u8],
    out: &mut W,
) -> io::Result<()> {
    let mut records = [[fill_of(c); 3]; RECORDS];
    let lent = &mut records[..count_of(c)];
    let section = decoder::read_on(c.name, arena, table, lent, buffer);
    tell(c, section, lent, out)
}

pub fn stateless<W: Write>(c: &Command, buffer: &mut [u8], out: &mut W) -> io::Result<()> {
    let mut records = [[fill_of(c); 3]; RECORDS];
    let lent = &mut records[..count_of(c)];
    let section = decoder::read_stateless(c.name, max_of(c), lent, buffer);
    tell(c, section, lent, out)
}

// A record that was never written.
fn blank(c: &Command) -> Field {
    let fill = fill_of(c);
    Field {
        start: fill,
        name: fill,
        value: fill,
    }
}

// Writes a section's answer, its numbers and the first records of a list of structs.
fn tell_listed<W: Write>(c: &Command, listed: Listed, out: &mut W) -> io::Result<()> {
    let records = listed
        .fields
        .map(|field| [field.start, field.name, field.value]);
    tell(c, listed.decoded, &records[..count_of(c)], out)
}

pub fn decode_header<W: Write>(
    c: &Command,
    table: &Table,
    arena: &[u8],
    buffer: &mut [u8],
    out: &mut W,
) -> io::Result<()> {
    let listed = listed::decode_header_listed(c.name, arena, table, blank(c), count_of(c), buffer);
    tell_listed(c, listed, out)
}

pub fn decode_stateless<W: Write>(c: &Command, buffer: &mut [u8], out: &mut W) -> io::Result<()> {
    let listed = listed::decode_stateless_listed(c.name, max_of(c), blank(c), count_of(c), buffer);
    tell_listed(c, listed, out)
}
