// What the readers of the instructions stand on, their first integer and its limit; and the writers. RFC 9204 4.3 and 4.4.
#![tactic(auto)]

ghost use Rattle.std.specs.Prelude.{◌≡◌};
ghost use Rattle.answers.specs.Write.{Writes};
ghost use Rattle.answers.specs.Answer.{answered};
ghost use Rattle.stream_parts.specs.Parts.{kind_int, past_limit, integer_bytes, name_ref_bytes, literal_bytes};

use answers::Refusal;
use forms::{DecoderInstruction, EncoderInstruction, Kind};
use prefix_int::Integer;

// The largest increment that a reader takes.
const INCREMENT_LIMIT: u64 = 64;

// The first integer of an instruction of a kind; another kind is refused after it.
#[tactic(auto, unfolding(crate::specs::Parts::kind_int))]
pub fn kind_int(s: &[u8], at: usize, kind: Kind) -> Result<Integer, Refusal>
    ensures { answered result ≡ kind_int s.now at kind }
{
    let form = forms::form_of(kind);
    let integer = prefix_int::read(s, at, form.width as u32)?;
    if s[at] & form.mask == form.pattern {
        return Ok(integer);
    }
    Err(Refusal::InvalidPrefix)
}

// Whether an instruction's integer is past its limit, which only an increment has.
pub fn past_limit(kind: Kind, value: u64) -> bool
    ensures { result ≡ past_limit kind value }
{
    match kind {
        Kind::Decoder(d) => match d {
            DecoderInstruction::InsertCountIncrement => INCREMENT_LIMIT < value,
            DecoderInstruction::StreamCancel => false,
            DecoderInstruction::HeaderAck => false,
        },
        Kind::Encoder(_) => false,
        Kind::Line(_) => false,
    }
}

// An instruction of a kind that is one integer.
#[tactic(auto, unfolding(crate::specs::Parts::integer_bytes))]
pub fn write_integer(buf: &mut [u8], at: usize, kind: Kind, value: u64) -> Result<usize, Refusal>
    ensures { Writes (integer_bytes kind value) buf.old at result buf.new }
{
    let head = forms::head_of(kind, false);
    int_writing::write(buf, at, head.width, head.flags, value)
}

// An insert with a name reference; is_static is T of 4.3.2.
#[tactic(auto, unfolding(crate::specs::Parts::name_ref_bytes))]
pub fn write_name_ref(
    buf: &mut [u8],
    at: usize,
    is_static: bool,
    index: u64,
    value: &[u8],
) -> Result<usize, Refusal>
    ensures { Writes (name_ref_bytes is_static index value.now) buf.old at result buf.new }
{
    let head = forms::head_of(
        Kind::Encoder(EncoderInstruction::InsertWithNameRef),
        is_static,
    );
    shape_writing::write_int_text(buf, at, head.width, head.flags, index, value)
}

// An insert with both strings.
#[tactic(auto, unfolding(crate::specs::Parts::literal_bytes))]
pub fn write_literal(buf: &mut [u8], at: usize, name: &[u8], value: &[u8]) -> Result<usize, Refusal>
    ensures { Writes (literal_bytes name.now value.now) buf.old at result buf.new }
{
    let head = forms::head_of(
        Kind::Encoder(EncoderInstruction::InsertWithoutNameRef),
        false,
    );
    // The string's flags stand above H.
    shape_writing::write_texts(buf, at, head.width, head.flags / 2, name, value)
}
