// The five field lines, RFC 9204 4.5, each read and written by itself.
#![tactic(auto)]

ghost use Rattle.std.specs.Prelude.{◌≡◌};
ghost use Rattle.block.specs.Lines.{
  reference_of,
  indexed_line,
  named_line,
  literal_line,
  line_at,
  line_read,
};

use answers::Refusal;
use forms::{HeaderBlockField, Kind};
pub use line_writing::{Reference, write_indexed, write_literal, write_named};

// A line: a whole field by its index, a name by its index and a value, or both strings; and the position past it.
// Strings stand by their places, as in `prefix_string::Text`.
#[derive(Clone, Copy)]
pub enum FieldLine {
    Indexed {
        field: Reference,
        next: usize,
    },
    Named {
        name: Reference,
        value: usize,
        value_len: usize,
        next: usize,
    },
    Literal {
        name: usize,
        name_len: usize,
        value: usize,
        value_len: usize,
        next: usize,
    },
}

// The entry that an index names: T, the lowest flag, says in which table, and a post-base line has no T.
fn reference_of(post_base: bool, flags: u8, index: u64) -> Reference
    ensures { result ≡ reference_of post_base flags index }
{
    if post_base {
        return Reference::PostBase(index);
    }
    if flags % 2 == 1 {
        return Reference::Static(index);
    }
    Reference::Relative(index)
}

// A line that is one index.
#[tactic(auto, unfolding(crate::specs::Lines::indexed_line))]
fn read_indexed(
    s: &[u8],
    at: usize,
    kind: HeaderBlockField,
    post_base: bool,
) -> Result<FieldLine, Refusal>
    ensures { line_read result ≡ indexed_line s.now at kind post_base }
{
    let form = forms::form_of(Kind::Line(kind));
    let index = prefix_int::read(s, at, form.width as u32)?;
    Ok(FieldLine::Indexed {
        field: reference_of(post_base, index.flags, index.value),
        next: index.next,
    })
}

// A line with a name by its index, and a value.
#[tactic(auto, unfolding(crate::specs::Lines::named_line))]
fn read_named(
    s: &[u8],
    at: usize,
    kind: HeaderBlockField,
    post_base: bool,
) -> Result<FieldLine, Refusal>
    ensures { line_read result ≡ named_line s.now at kind post_base }
{
    let form = forms::form_of(Kind::Line(kind));
    let index = prefix_int::read(s, at, form.width as u32);
    let text = shapes::text_after(s, index)?;
    Ok(FieldLine::Named {
        name: reference_of(post_base, text.flags, text.index),
        value: text.start,
        value_len: text.len,
        next: text.next,
    })
}

// A line with both strings.
#[tactic(auto, unfolding(crate::specs::Lines::literal_line))]
fn read_literal(s: &[u8], at: usize) -> Result<FieldLine, Refusal>
    ensures { line_read result ≡ literal_line s.now at }
{
    let form = forms::form_of(Kind::Line(HeaderBlockField::Literal));
    let texts = shapes::texts(s, at, form.width as u32)?;
    Ok(FieldLine::Literal {
        name: texts.name,
        name_len: texts.name_len,
        value: texts.value,
        value_len: texts.value_len,
        next: texts.next,
    })
}

// The line at a position.
#[tactic(auto, unfolding(crate::specs::Lines::line_at, crate::specs::Lines::line_of))]
pub fn read_line(s: &[u8], at: usize) -> Result<FieldLine, Refusal>
    ensures { line_read result ≡ line_at s.now at }
{
    if s.len() <= at {
        return Err(Refusal::UnexpectedEnd);
    }
    let kind = forms::line_kind(s[at]);
    match kind {
        HeaderBlockField::LiteralWithPostBaseNameRef => read_named(s, at, kind, true),
        HeaderBlockField::IndexedWithPostBase => read_indexed(s, at, kind, true),
        HeaderBlockField::Literal => read_literal(s, at),
        HeaderBlockField::LiteralWithNameRef => read_named(s, at, kind, false),
        HeaderBlockField::Indexed => read_indexed(s, at, kind, false),
    }
}
