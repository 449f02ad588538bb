// The field that a line of a section stands for, RFC 9204 4.5.2 to 4.5.6: where its name and its value stand.
#![tactic(auto)]

ghost use Rattle.std.specs.Prelude.{◌≡◌, List, ℕ};
ghost use Rattle.field_lines.specs.Line.{line_on, line_static, is_post_base, field_read, FieldFrom, FieldInside, FieldFixed, live_of};

use answers::Refusal;
use block::FieldLine;
use forms::HeaderBlockField;
pub use line_entries::{Entry, Text, entry_on, entry_static, static_entry};
use line_writing::Reference;
use ring::Ring;

// A line's name and value, and the position past the line.
#[derive(Clone, Copy)]
pub struct FieldAt {
    pub name: Text,
    pub value: Text,
    pub next: usize,
}

// The field of a line, by what finds the entry that a reference names.
fn field_of<F: FnOnce(Reference) -> Result<Entry, Refusal>>(
    line: FieldLine,
    find: F,
) -> Result<FieldAt, Refusal>
    requires { F.IsAlwaysCallable find }
    ensures { FieldFrom (F.post find) line result }
{
    match line {
        FieldLine::Indexed { field, next } => {
            let whole = find(field)?;
            Ok(FieldAt {
                name: whole.name,
                value: whole.value,
                next,
            })
        }
        FieldLine::Named {
            name,
            value,
            value_len,
            next,
        } => {
            let named = find(name)?;
            Ok(FieldAt {
                name: named.name,
                value: Text::Input {
                    start: value,
                    len: value_len,
                },
                next,
            })
        }
        FieldLine::Literal {
            name,
            name_len,
            value,
            value_len,
            next,
        } => Ok(FieldAt {
            name: Text::Input {
                start: name,
                len: name_len,
            },
            value: Text::Input {
                start: value,
                len: value_len,
            },
            next,
        }),
    }
}

// The field of the line at a position, on the entries of a ring and with a base.
#[tactic(auto, unfolding(crate::specs::Line::line_on))]
pub fn read_on(ring: &Ring, base: usize, s: &[u8], at: usize) -> Result<FieldAt, Refusal>
    ensures by_index { (a : List ℕ) → field_read s.now a result ≡ line_on (live_of ring.now a) base s.now at }
    ensures field_inside { FieldInside s.now at result }
{
    let line = block::read_line(s, at)?;
    field_of(line, |reference| entry_on(ring, base, reference))
}

// Whether a line's index counts from the base upwards.
fn is_post_base(kind: HeaderBlockField) -> bool
    ensures { result ≡ is_post_base kind }
{
    matches!(
        kind,
        HeaderBlockField::LiteralWithPostBaseNameRef | HeaderBlockField::IndexedWithPostBase
    )
}

// The field of the line at a position, with no table.
#[tactic(auto, unfolding(crate::specs::Line::line_static))]
pub fn read_static(s: &[u8], at: usize) -> Result<FieldAt, Refusal>
    ensures by_index { (a : List ℕ) → field_read s.now a result ≡ line_static s.now at }
    ensures field_inside { FieldInside s.now at result }
    ensures field_fixed { FieldFixed result }
{
    if s.len() <= at {
        return Err(Refusal::UnexpectedEnd);
    }
    if is_post_base(forms::line_kind(s[at])) {
        return Err(Refusal::MissingRefs);
    }
    let line = block::read_line(s, at)?;
    field_of(line, entry_static)
}
