// The writing of the five field lines, RFC 9204 4.5.
#![tactic(auto)]

ghost use Rattle.std.specs.Prelude.{◌≡◌};
ghost use Rattle.answers.specs.Write.{Writes};
ghost use Rattle.line_writing.specs.Bytes.{index_of, indexed_head, named_head, indexed_bytes, named_bytes, literal_bytes};

use answers::Refusal;
use forms::{Head, HeaderBlockField, Kind};

// Which entry a line names.
#[derive(Clone, Copy)]
pub enum Reference {
    Static(u64),
    Relative(u64),
    PostBase(u64),
}

// The number in a reference.
fn index_of(entry: Reference) -> u64
    ensures { result ≡ index_of entry }
{
    match entry {
        Reference::Static(i) => i,
        Reference::Relative(i) => i,
        Reference::PostBase(i) => i,
    }
}

// The first integer's head for a line that is one index.
fn indexed_head(entry: Reference) -> Head
    ensures { result ≡ indexed_head entry }
{
    match entry {
        Reference::Static(_) => forms::head_of(Kind::Line(HeaderBlockField::Indexed), true),
        Reference::Relative(_) => forms::head_of(Kind::Line(HeaderBlockField::Indexed), false),
        Reference::PostBase(_) => forms::head_of(
            Kind::Line(HeaderBlockField::IndexedWithPostBase),
            false,
        ),
    }
}

// The first integer's head for a line with a name by its index.
fn named_head(entry: Reference) -> Head
    ensures { result ≡ named_head entry }
{
    match entry {
        Reference::Static(_) => forms::head_of(
            Kind::Line(HeaderBlockField::LiteralWithNameRef),
            true,
        ),
        Reference::Relative(_) => forms::head_of(
            Kind::Line(HeaderBlockField::LiteralWithNameRef),
            false,
        ),
        Reference::PostBase(_) => forms::head_of(
            Kind::Line(HeaderBlockField::LiteralWithPostBaseNameRef),
            false,
        ),
    }
}

// A line that is one index.
#[tactic(auto, unfolding(crate::specs::Bytes::indexed_bytes))]
pub fn write_indexed(buf: &mut [u8], at: usize, field: Reference) -> Result<usize, Refusal>
    ensures { Writes (indexed_bytes field) buf.old at result buf.new }
{
    let head = indexed_head(field);
    int_writing::write(buf, at, head.width, head.flags, index_of(field))
}

// A line with a name by its index, and a value.
#[tactic(auto, unfolding(crate::specs::Bytes::named_bytes))]
pub fn write_named(
    buf: &mut [u8],
    at: usize,
    name: Reference,
    value: &[u8],
) -> Result<usize, Refusal>
    ensures { Writes (named_bytes name value.now) buf.old at result buf.new }
{
    let head = named_head(name);
    shape_writing::write_int_text(buf, at, head.width, head.flags, index_of(name), value)
}

// A line with both strings.
#[tactic(auto, unfolding(crate::specs::Bytes::literal_bytes))]
pub fn write_literal(buf: &mut [u8], at: usize, name: &[u8], value: &[u8]) -> Result<usize, Refusal>
    ensures { Writes (literal_bytes name.now value.now) buf.old at result buf.new }
{
    let head = forms::head_of(Kind::Line(HeaderBlockField::Literal), false);
    // The string's flags stand above H.
    shape_writing::write_texts(buf, at, head.width, head.flags / 2, name, value)
}
