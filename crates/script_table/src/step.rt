// One step of a section, from a cursor that a script gives.
use decoder::{Cursor, Line, MaxSize};
use dynamic::Table;
use script::answer::{Answer, Values};
use script::input::Command;
use script::values;

// The cursor that seven numbers are.
fn cursor_of([started, dynamic, base, at, used, count, size]: [u64; 7]) -> Cursor {
    Cursor {
        started: started % 2 == 1,
        dynamic: dynamic % 2 == 1,
        base: base as usize,
        at: at as usize,
        used: used as usize,
        count: count as usize,
        size: size as usize,
    }
}

// The room for records, the cursor, and the most bytes, that a step's numbers are.
fn step_of(c: &Command) -> (usize, Cursor, MaxSize) {
    let [records, started, dynamic, base, at, used, count, size, max] = c.numbers;
    let cursor = cursor_of([started, dynamic, base, at, used, count, size]);
    let max = MaxSize {
        bytes: max as usize,
    };
    (records as usize, cursor, max)
}

// Whether the section is done, the field's three numbers, the cursor past it, and the section's four numbers.
fn step_values(done: bool, field: [usize; 3], c: Cursor, section: [usize; 4]) -> Values {
    let [start, name, value] = field;
    let [dynamic, count, used, size] = section;
    values![
        done, start, name, value, c.started, c.dynamic, c.base, c.at, c.used, c.count, c.size,
        dynamic, count, used, size
    ]
}

// A section that is done has no field, and one that goes on no numbers of its own.
fn told(line: Line) -> Answer {
    match line {
        Line::Ended(reply, c) => {
            let section = [usize::from(c.dynamic), c.count, c.used, c.size];
            Answer {
                reply,
                values: step_values(true, [0; 3], c, section),
            }
        }
        Line::Found(f, c) => {
            let field = [f.start, f.name, f.value];
            Answer::from(Ok(step_values(false, field, c, [0; 4])))
        }
    }
}

fn cursor(c: Cursor) -> Values {
    values![c.started, c.dynamic, c.base, c.at, c.used, c.count, c.size]
}

pub fn begin() -> Answer {
    Answer::from(Ok(cursor(section_steps::begin())))
}

pub fn begin_on(c: &Command, table: &Table, arena: &[u8]) -> Answer {
    let [started, dynamic, base, at, used, count, size, ..] = c.numbers;
    let from = cursor_of([started, dynamic, base, at, used, count, size]);
    let begun = section_steps::begin_on(c.name, arena, table, from);
    Answer::from(begun.map(cursor))
}

pub fn line_on(c: &Command, table: &Table, arena: &[u8], buffer: &mut [u8]) -> Answer {
    let (room, from, _) = step_of(c);
    let line = section_steps::line_on(c.name, arena, &table.ring, room, buffer, from);
    told(line)
}

pub fn on_table(c: &Command, table: &Table, arena: &[u8], buffer: &mut [u8]) -> Answer {
    let (room, from, _) = step_of(c);
    told(decoder::next_on(c.name, arena, table, room, buffer, from))
}

pub fn stateless(c: &Command, buffer: &mut [u8]) -> Answer {
    let (room, from, max) = step_of(c);
    told(decoder::next_stateless(c.name, max, room, buffer, from))
}
