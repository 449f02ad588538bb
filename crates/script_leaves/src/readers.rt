// The readers of integers, strings, single instructions and field lines.
use crate::kinds::kind_of;
use crate::width;
use answers::Refusal;
use block::{FieldLine, Reference};
use prefix_int::Integer;
use prefix_string::Text;
use script::answer::Values;
use script::calls::LeafReader;
use script::input::Command;
use script::values;
use script::words::Word;
use shapes::{IntText, TwoTexts};
use stream::{Literal, NameRef, OneInteger};

// What was read, or that the bytes end inside.
pub fn cut_or(whole: Option<Values>) -> Values {
    whole.unwrap_or(values![Word::Cut])
}

// A reference's word and its index.
pub fn reference_of(reference: Reference) -> (Word, u64) {
    match reference {
        Reference::Static(index) => (Word::Static, index),
        Reference::Relative(index) => (Word::Relative, index),
        Reference::PostBase(index) => (Word::PostBase, index),
    }
}

fn integer(Integer { flags, value, next }: Integer) -> Values {
    values![flags, value, next]
}

fn text(read: Text) -> Values {
    values![read.flags, read.start, read.len, read.next]
}

fn int_text(read: IntText) -> Values {
    values![read.flags, read.index, read.start, read.len, read.next]
}

fn texts(read: TwoTexts) -> Values {
    values![
        read.flags,
        read.name,
        read.name_len,
        read.value,
        read.value_len,
        read.next
    ]
}

fn one_integer(OneInteger { value, next }: OneInteger) -> Values {
    values![value, next]
}

fn name_ref(read: NameRef) -> Values {
    values![
        read.is_static,
        read.index,
        read.value,
        read.value_len,
        read.next
    ]
}

fn literal(read: Literal) -> Values {
    values![
        read.name,
        read.name_len,
        read.value,
        read.value_len,
        read.next
    ]
}

fn field_line(line: FieldLine) -> Values {
    match line {
        FieldLine::Indexed { field, next } => {
            let (word, index) = reference_of(field);
            values![Word::Indexed, word, index, next]
        }
        FieldLine::Named {
            name,
            value,
            value_len,
            next,
        } => {
            let (word, index) = reference_of(name);
            values![Word::Named, word, index, value, value_len, next]
        }
        FieldLine::Literal {
            name,
            name_len,
            value,
            value_len,
            next,
        } => values![Word::Literal, name, name_len, value, value_len, next],
    }
}

pub fn read(reader: LeafReader, c: &Command) -> Result<Values, Refusal> {
    let s = c.name;
    let [first, second, ..] = c.numbers;
    let at = first as usize;
    // These have their kind before the position.
    let behind = second as usize;
    let bits = width(second);
    Ok(match reader {
        LeafReader::Int => integer(prefix_int::read(s, at, bits)?),
        LeafReader::KindInt => integer(stream_parts::kind_int(s, behind, kind_of(first))?),
        LeafReader::Text => text(prefix_string::read(s, at, bits)?),
        LeafReader::TextAfter => { int_text(shapes::text_after(s, prefix_int::read(s, at, bits))?) }
        LeafReader::Texts => texts(shapes::texts(s, at, bits)?),
        LeafReader::StreamInteger => {
            cut_or(stream::read_integer(s, behind, kind_of(first))?.map(one_integer))
        }
        LeafReader::StreamNameRef => cut_or(stream::read_name_ref(s, at)?.map(name_ref)),
        LeafReader::StreamLiteral => cut_or(stream::read_literal(s, at)?.map(literal)),
        LeafReader::Line => field_line(block::read_line(s, at)?),
    })
}
