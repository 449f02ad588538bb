// A table's whole record as text, and the strings of its live entries.
use crate::strings::{Strings, byte_of, strings_of};
use dynamic::Table;
use ring::Ring;
use script::text::Trimmed;
use std::fmt;
use std::fmt::{Formatter, Write};
use tracking::{Held, Queue, Section, Value, Waiting};

#[derive(Clone, Copy)]
pub struct Record<'a> {
    pub table: &'a Table,
    pub arena: &'a [u8],
}

// A list of slots, without the zeros at its end.
fn slots<W: Write>(f: &mut Formatter<W>, word: &str, slots: &[u16]) -> fmt::Result {
    let shown = Trimmed::new(slots, &0);
    write!(f, " {word}")?;
    for slot in shown.kept {
        write!(f, " {slot}")?;
    }
    write!(f, "{}", shown.rest)
}

fn ring<W: Write>(f: &mut Formatter<W>, r: &Ring) -> fmt::Result {
    write!(
        f,
        " inserted {} dropped {} size {}",
        r.inserted, r.dropped, r.size
    )?;
    write!(
        f,
        " capacity {} tail {} head {}",
        r.capacity, r.tail, r.head
    )?;
    slots(f, "starts", &r.starts)?;
    slots(f, "names", &r.names)?;
    slots(f, "values", &r.values)
}

fn waiting<W: Write>(f: &mut Formatter<W>, w: &Waiting) -> fmt::Result {
    let none = Value {
        largest: 0,
        sections: 0,
    };
    let shown = Trimmed::new(&w.values, &none);
    write!(f, " total {} distinct {} blocked", w.total, w.distinct)?;
    for value in shown.kept {
        write!(f, " {}:{}", value.largest, value.sections)?;
    }
    write!(f, "{}", shown.rest)
}

fn section<W: Write>(f: &mut Formatter<W>, word: &str, s: &Section) -> fmt::Result {
    let none = Held {
        offset: 0,
        count: 0,
    };
    let shown = Trimmed::new(&s.uses, &none);
    write!(f, " {word} {} {} {}", s.stream, s.from, s.used)?;
    for held in shown.kept {
        write!(f, " {}:{}", held.offset, held.count)?;
    }
    write!(f, "{}", shown.rest)
}

fn queue<W: Write>(f: &mut Formatter<W>, q: &Queue) -> fmt::Result {
    write!(f, " queued {}", q.queued)?;
    for place in q.places.iter() {
        section(f, "place", place)?;
    }
    Ok(())
}

// Some bytes of the arena's ring.
fn stretch<W: Write>(f: &mut Formatter<W>, arena: &[u8], start: u32, end: u32) -> fmt::Result {
    write!(f, " 0x")?;
    for at in start..end {
        let byte = byte_of(arena, at);
        write!(f, "{byte:02x}")?;
    }
    Ok(())
}

// The live entries, oldest first, of a ring that keeps its rules.
fn live<W: Write>(f: &mut Formatter<W>, r: &Ring, arena: &[u8]) -> fmt::Result {
    write!(f, " live")?;
    for gone in r.dropped..r.inserted {
        let Strings { start, name, value } = strings_of(r, gone);
        let start = u32::from(start);
        let middle = start + u32::from(name);
        stretch(f, arena, start, middle)?;
        stretch(f, arena, middle, middle + u32::from(value))?;
    }
    Ok(())
}

impl fmt::Display for Record<'_> {
    fn fmt<W: Write>(&self, f: &mut Formatter<W>) -> fmt::Result {
        let t = self.table;
        ring(f, &t.ring)?;
        write!(f, " known {} most {}", t.known, t.most)?;
        waiting(f, &t.waiting)?;
        write!(f, " active {} base {}", u8::from(t.active), t.base)?;
        section(f, "open", &t.section)?;
        queue(f, &t.queue)?;
        if t.ring.sound() {
            live(f, &t.ring, self.arena)
        } else {
            write!(f, " unsound")
        }
    }
}
