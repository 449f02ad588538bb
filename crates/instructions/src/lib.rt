// The instructions of the encoder stream, RFC 9204 4.3, by the kind that their first byte gives. A reader answers None where its bytes are cut.
#![tactic(auto)]

ghost use Rattle.std.specs.Prelude.{◌≡◌};
ghost use Rattle.forms.specs.declared.EncoderInstruction.TheVariants.{
  Duplicate,
  DynamicTableSizeUpdate,
  InsertWithoutNameRef,
  InsertWithNameRef,
};
ghost use Rattle.instructions.specs.Instruction.{of_kind, instruction_at, instruction_read, Within};

use answers::Refusal;
use forms::{EncoderInstruction, Kind};
use running::Whole;

// An instruction: its numbers, and its strings' places as in `prefix_string::Text`. The flag is T of 4.3.2.
#[derive(Clone, Copy)]
pub enum Parsed {
    Duplicate(usize),
    Capacity(usize),
    Literal {
        name: usize,
        name_len: usize,
        value: usize,
        value_len: usize,
    },
    NameRef {
        is_static: bool,
        index: usize,
        value: usize,
        value_len: usize,
    },
}

// A duplicate.
#[tactic(auto, unfolding(crate::specs::Instruction::of_kind))]
fn read_duplicate(s: &[u8], at: usize) -> Result<Option<Whole<Parsed>>, Refusal>
    ensures { (instruction_read s.now result ≡ of_kind s.now at Duplicate) × Within s.now at result }
{
    let kind = Kind::Encoder(EncoderInstruction::Duplicate);
    let Some(index) = stream::read_integer(s, at, kind)? else {
        return Ok(None);
    };
    Ok(Some(Whole {
        instruction: Parsed::Duplicate(index.value as usize),
        next: index.next,
    }))
}

// A capacity. It has a reader beside the duplicate's: a variant handed in as a function would ask for a promise of its own.
#[tactic(auto, unfolding(crate::specs::Instruction::of_kind))]
fn read_capacity(s: &[u8], at: usize) -> Result<Option<Whole<Parsed>>, Refusal>
    ensures { (instruction_read s.now result ≡ of_kind s.now at DynamicTableSizeUpdate) × Within s.now at result }
{
    let kind = Kind::Encoder(EncoderInstruction::DynamicTableSizeUpdate);
    let Some(capacity) = stream::read_integer(s, at, kind)? else {
        return Ok(None);
    };
    Ok(Some(Whole {
        instruction: Parsed::Capacity(capacity.value as usize),
        next: capacity.next,
    }))
}

// An insert with both strings.
#[tactic(auto, unfolding(crate::specs::Instruction::of_kind))]
fn read_literal(s: &[u8], at: usize) -> Result<Option<Whole<Parsed>>, Refusal>
    ensures { (instruction_read s.now result ≡ of_kind s.now at InsertWithoutNameRef) × Within s.now at result }
{
    let Some(literal) = stream::read_literal(s, at)? else {
        return Ok(None);
    };
    Ok(Some(Whole {
        instruction: Parsed::Literal {
            name: literal.name,
            name_len: literal.name_len,
            value: literal.value,
            value_len: literal.value_len,
        },
        next: literal.next,
    }))
}

// An insert with a name reference.
#[tactic(auto, unfolding(crate::specs::Instruction::of_kind))]
fn read_name_ref(s: &[u8], at: usize) -> Result<Option<Whole<Parsed>>, Refusal>
    ensures { (instruction_read s.now result ≡ of_kind s.now at InsertWithNameRef) × Within s.now at result }
{
    let Some(reference) = stream::read_name_ref(s, at)? else {
        return Ok(None);
    };
    Ok(Some(Whole {
        instruction: Parsed::NameRef {
            is_static: reference.is_static,
            index: reference.index as usize,
            value: reference.value,
            value_len: reference.value_len,
        },
        next: reference.next,
    }))
}

// The instruction at a position.
#[tactic(auto, unfolding(crate::specs::Instruction::instruction_at))]
pub fn read_instruction(s: &[u8], at: usize) -> Result<Option<Whole<Parsed>>, Refusal>
    ensures { (instruction_read s.now result ≡ instruction_at s.now at) × Within s.now at result }
{
    if s.len() <= at {
        return Ok(None);
    }
    let kind = forms::encoder_kind(s[at]);
    match kind {
        EncoderInstruction::Duplicate => read_duplicate(s, at),
        EncoderInstruction::DynamicTableSizeUpdate => read_capacity(s, at),
        EncoderInstruction::InsertWithoutNameRef => read_literal(s, at),
        EncoderInstruction::InsertWithNameRef => read_name_ref(s, at),
    }
}
