// The writers, each into a buffer that is shown whole.
use crate::kinds::{kind_of, reference_of};
use crate::{low_byte, width};
use answers::Refusal;
use script::calls::LeafWriter;
use script::input::Command;

pub fn write(writer: LeafWriter, c: &Command, buffer: &mut [u8]) -> Result<usize, Refusal> {
    let (name, value) = (c.name, c.value);
    let [first, second, third, fourth, ..] = c.numbers;
    let at = first as usize;
    // These have their kind or reference before the position.
    let behind = second as usize;
    let (bits, flags) = (width(second), low_byte(third));
    match writer {
        LeafWriter::Int => prefix_int::write(buffer, at, bits, flags, fourth),
        LeafWriter::Text => prefix_string::write(buffer, at, bits, flags, name),
        LeafWriter::Bytes => byte_writing::write(buffer, at, name, behind, third as usize),
        LeafWriter::StaticCopy => static_table::copy(buffer, at, behind, third as usize),
        LeafWriter::StreamInteger => {
            stream::write_integer(buffer, behind, kind_of(first), third)
        }
        LeafWriter::StreamNameRef => {
            stream::write_name_ref(buffer, at, second % 2 == 1, third, name)
        }
        LeafWriter::StreamLiteral => stream::write_literal(buffer, at, name, value),
        LeafWriter::LineIndexed => {
            block::write_indexed(buffer, behind, reference_of(first, third))
        }
        LeafWriter::LineNamed => {
            block::write_named(buffer, behind, reference_of(first, third), name)
        }
        LeafWriter::LineLiteral => block::write_literal(buffer, at, name, value),
        LeafWriter::IntText => shapes::write_int_text(buffer, at, bits, flags, fourth, name),
        LeafWriter::Texts => shapes::write_texts(buffer, at, bits, flags, name, value),
    }
}
