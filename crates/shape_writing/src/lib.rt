// The writing of an integer and a value, or of a name and a value: both or nothing.
#![tactic(auto)]

ghost use Rattle.std.specs.Prelude.{◌≡◌, ◌+◌, leb, length};
ghost use Rattle.answers.specs.Answer.{answered, and_then, done};
ghost use Rattle.answers.specs.Write.{Writes};
ghost use Rattle.prefix_int.specs.Integer.{int_bytes};
ghost use Rattle.text_writing.specs.Plain.{plain};
ghost use Rattle.shape_writing.specs.Joined.{value_width, int_text_bytes, texts_bytes};

use answers::Refusal;

// The bits of a value's length: H and seven more.
pub const VALUE_WIDTH: u32 = 7;

// How many bytes an integer with its flags takes.
fn int_size(width: u32, flags: u8, index: u64) -> Result<usize, Refusal>
    ensures { answered result ≡ and_then (int_bytes width flags index) (λ bytes. done (length bytes)) }
{
    if !prefix_int::call_ok(width, flags) {
        return Err(Refusal::BadCall);
    }
    prefix_int::size(index, width)
}

// How many bytes a value takes.
fn value_size(value: &[u8]) -> usize
    ensures { result ≡ length (plain value_width 0 value.now) }
{
    text_writing::size(value.len(), VALUE_WIDTH, 0).unwrap()
}

// Whether two parts fit into len bytes from a position on.
fn both_fit(len: usize, at: usize, first: usize, second: usize) -> bool
    ensures { result ≡ leb (at + (first + second)) len }
{
    if len < first {
        return false;
    }
    let room = len - first;
    if room < second {
        return false;
    }
    if room - second < at {
        return false;
    }
    true
}

// An integer and a value, both or nothing.
pub fn write_int_text(
    buf: &mut [u8],
    at: usize,
    width: u32,
    flags: u8,
    index: u64,
    value: &[u8],
) -> Result<usize, Refusal>
    ensures { Writes (int_text_bytes width flags index value.now) buf.old at result buf.new }
{
    let index_size = int_size(width, flags, index)?;
    if !both_fit(buf.len(), at, index_size, value_size(value)) {
        return Err(Refusal::OutputFull);
    }
    let between = prefix_int::write(buf, at, width, flags, index).unwrap();
    text_writing::write(buf, between, VALUE_WIDTH, 0, value)
}

// A name and a value, both or nothing.
pub fn write_texts(
    buf: &mut [u8],
    at: usize,
    width: u32,
    flags: u8,
    name: &[u8],
    value: &[u8],
) -> Result<usize, Refusal>
    ensures { Writes (texts_bytes width flags name.now value.now) buf.old at result buf.new }
{
    let name_size = text_writing::size(name.len(), width, flags)?;
    if !both_fit(buf.len(), at, name_size, value_size(value)) {
        return Err(Refusal::OutputFull);
    }
    let between = text_writing::write(buf, at, width, flags, name).unwrap();
    text_writing::write(buf, between, VALUE_WIDTH, 0, value)
}
