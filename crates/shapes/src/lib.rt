// What instructions and field lines are made of beyond one integer: an integer and a value, or a name and a value.
#![tactic(auto)]

ghost use Rattle.std.specs.Prelude.{◌≡◌};
ghost use Rattle.answers.specs.Answer.{answered};
ghost use Rattle.shapes.specs.Shapes.{text_after, texts_at};

use answers::Refusal;
use prefix_int::Integer;
use shape_writing::VALUE_WIDTH;
pub use shape_writing::{write_int_text, write_texts};

// An integer and the value that follows it, by its place as in `Text`.
#[derive(Clone, Copy)]
pub struct IntText {
    pub flags: u8,
    pub index: u64,
    pub start: usize,
    pub len: usize,
    pub next: usize,
}

// A name and the value that follows it, by their places as in `Text`.
#[derive(Clone, Copy)]
pub struct TwoTexts {
    pub flags: u8,
    pub name: usize,
    pub name_len: usize,
    pub value: usize,
    pub value_len: usize,
    pub next: usize,
}

// The value that follows an integer which was read.
#[tactic(auto, unfolding(crate::specs::Shapes::text_after))]
pub fn text_after(s: &[u8], integer: Result<Integer, Refusal>) -> Result<IntText, Refusal>
    ensures { answered result ≡ text_after s.now (answered integer) }
{
    let index = integer?;
    let text = prefix_string::read(s, index.next, VALUE_WIDTH)?;
    Ok(IntText {
        flags: index.flags,
        index: index.value,
        start: text.start,
        len: text.len,
        next: text.next,
    })
}

// A name whose length has a prefix of width bits, and a value.
#[tactic(auto, unfolding(crate::specs::Shapes::texts_at))]
pub fn texts(s: &[u8], at: usize, width: u32) -> Result<TwoTexts, Refusal>
    ensures { answered result ≡ texts_at s.now at width }
{
    let name = prefix_string::read(s, at, width)?;
    let value = prefix_string::read(s, name.next, VALUE_WIDTH)?;
    Ok(TwoTexts {
        flags: name.flags,
        name: name.start,
        name_len: name.len,
        value: value.start,
        value_len: value.len,
        next: value.next,
    })
}
