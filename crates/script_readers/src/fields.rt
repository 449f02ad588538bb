// Field lines and entries, on a table's ring or with none.
use answers::Refusal;
use field_lines::{FieldAt, Text};
use line_entries::Entry;
use ring::Ring;
use script::answer::Values;
use script::calls::LineCall;
use script::input::Command;
use script::values;
use script::words::Word;
use script_leaves::kinds::reference_of;

// Where a string stands: the word for it, its start and its length.
fn place(text: Text) -> (Word, usize, usize) {
    match text {
        Text::Input { start, len } => (Word::Input, start, len),
        Text::Fixed { start, len } => (Word::Fixed, start, len),
        Text::Stored { start, len } => (Word::Stored, start, len),
    }
}

pub fn field(read: FieldAt) -> Values {
    let (name, name_start, name_len) = place(read.name);
    let (value, value_start, value_len) = place(read.value);
    values![
        name,
        name_start,
        name_len,
        value,
        value_start,
        value_len,
        read.next
    ]
}

pub fn entry(read: Entry) -> Values {
    let (name, name_start, name_len) = place(read.name);
    let (value, value_start, value_len) = place(read.value);
    values![name, name_start, name_len, value, value_start, value_len]
}

pub fn read_on(line: LineCall, c: &Command, ring: &Ring) -> Result<Values, Refusal> {
    let [first, second, third, ..] = c.numbers;
    Ok(match line {
        LineCall::Line => {
            let (base, at) = (first as usize, second as usize);
            field(field_lines::read_on(ring, base, c.name, at)?)
        }
        LineCall::Entry => {
            let reference = reference_of(first, third);
            entry(field_lines::entry_on(ring, second as usize, reference)?)
        }
    })
}
