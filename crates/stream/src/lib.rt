// The instructions of both streams, RFC 9204 4.3 and 4.4, each read and written by itself. A reader answers None where its bytes are cut.
#![tactic(auto)]

ghost use Rattle.std.specs.Prelude.{◌≡◌};
ghost use Rattle.answers.specs.Answer.{answered, answered_or_cut, and_then, done};
ghost use Rattle.shapes.specs.Shapes.{text_after, texts_at};
ghost use Rattle.stream.specs.Instructions.{
  integer_at,
  name_ref_at,
  literal_at,
  within_limit,
  kind_int,
  name_ref,
  literal,
  name_ref_kind,
  literal_width,
};

use answers::{Refusal, cut_short};
use forms::{EncoderInstruction, Kind};
use stream_parts::{kind_int, past_limit};
pub use stream_parts::{write_integer, write_literal, write_name_ref};

// An instruction that is one integer.
#[derive(Clone, Copy)]
pub struct OneInteger {
    pub value: u64,
    pub next: usize,
}

// An insert with a name by its index, and its value's place as in `Text`. The flag is T of 4.3.2, which the index does not need.
#[derive(Clone, Copy)]
pub struct NameRef {
    pub is_static: bool,
    pub index: u64,
    pub value: usize,
    pub value_len: usize,
    pub next: usize,
}

// An insert with both strings, by their places as in `Text`.
#[derive(Clone, Copy)]
pub struct Literal {
    pub name: usize,
    pub name_len: usize,
    pub value: usize,
    pub value_len: usize,
    pub next: usize,
}

fn whole_integer(s: &[u8], at: usize, kind: Kind) -> Result<OneInteger, Refusal>
    ensures { answered result ≡ and_then (kind_int s.now at kind) (within_limit kind) }
{
    let integer = kind_int(s, at, kind)?;
    if past_limit(kind, integer.value) {
        return Err(Refusal::Overflow);
    }
    Ok(OneInteger {
        value: integer.value,
        next: integer.next,
    })
}

// An instruction of a kind that is one integer: Duplicate, capacity, acknowledgement, cancellation, increment.
#[tactic(auto, unfolding(crate::specs::Instructions::integer_at))]
pub fn read_integer(s: &[u8], at: usize, kind: Kind) -> Result<Option<OneInteger>, Refusal>
    ensures { answered_or_cut result ≡ integer_at s.now at kind }
{
    cut_short(whole_integer(s, at, kind))
}

fn whole_name_ref(s: &[u8], at: usize) -> Result<NameRef, Refusal>
    ensures { answered result ≡ and_then (text_after s.now (kind_int s.now at name_ref_kind)) (λ t. done (name_ref t)) }
{
    let index = kind_int(s, at, Kind::Encoder(EncoderInstruction::InsertWithNameRef));
    let text = shapes::text_after(s, index)?;
    Ok(NameRef {
        is_static: text.flags % 2 == 1,
        index: text.index,
        value: text.start,
        value_len: text.len,
        next: text.next,
    })
}

// An insert with a name reference.
#[tactic(auto, unfolding(crate::specs::Instructions::name_ref_at))]
pub fn read_name_ref(s: &[u8], at: usize) -> Result<Option<NameRef>, Refusal>
    ensures { answered_or_cut result ≡ name_ref_at s.now at }
{
    cut_short(whole_name_ref(s, at))
}

fn whole_literal(s: &[u8], at: usize) -> Result<Literal, Refusal>
    ensures { answered result ≡ and_then (texts_at s.now at literal_width) (λ t. done (literal t)) }
{
    let form = forms::form_of(Kind::Encoder(EncoderInstruction::InsertWithoutNameRef));
    let texts = shapes::texts(s, at, form.width as u32)?;
    Ok(Literal {
        name: texts.name,
        name_len: texts.name_len,
        value: texts.value,
        value_len: texts.value_len,
        next: texts.next,
    })
}

// An insert with both strings: its reader tests no kind, as in the Rust.
#[tactic(auto, unfolding(crate::specs::Instructions::literal_at))]
pub fn read_literal(s: &[u8], at: usize) -> Result<Option<Literal>, Refusal>
    ensures { answered_or_cut result ≡ literal_at s.now at }
{
    cut_short(whole_literal(s, at))
}
