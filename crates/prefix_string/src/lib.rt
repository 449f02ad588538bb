// Plain strings, RFC 7541 5.2 without its Huffman code: the H bit, a length as a prefix integer, and the bytes.
#![tactic(auto)]

ghost use Rattle.std.specs.Prelude.{◌≡◌, ◌≤◌, eqb};
ghost use Rattle.answers.specs.Answer.{answered, and_then};
ghost use Rattle.prefix_int.specs.Integer.{int_at};
ghost use Rattle.prefix_string.specs.Text.{h_bit, bytes_after, text_at};

use answers::Refusal;
use text_writing::call_ok;
pub use text_writing::{size, write};

// A string that was read: the bits above H, where its bytes start, how many there are, and the position past them.
// Two numbers, and no slice of the input: what is read by them is checked and shown by its place.
#[derive(Clone, Copy)]
pub struct Text {
    pub flags: u8,
    pub start: usize,
    pub len: usize,
    pub next: usize,
}

// Whether the bit above a prefix of width bits is set.
fn huffman(b: u8, width: u32) -> bool
    requires { width ≤ 7 }
    ensures { result ≡ eqb (h_bit width b) 1 }
{
    (b >> width) % 2 == 1
}

// A length at a position, and the bytes that follow it.
fn plain_at(s: &[u8], at: usize, width: u32) -> Result<Text, Refusal>
    ensures { answered result ≡ and_then (int_at s.now at width) (bytes_after s.now) }
{
    let length = prefix_int::read(s, at, width)?;
    let start = length.next;
    let room = (s.len() - start) as u64;
    if room < length.value {
        return Err(Refusal::UnexpectedEnd);
    }
    let len = length.value as usize;
    Ok(Text {
        flags: length.flags / 2,
        start,
        len,
        next: start + len,
    })
}

// The string at a position, whose length has a prefix of width bits.
#[tactic(auto, unfolding(crate::specs::Text::text_at))]
pub fn read(s: &[u8], at: usize, width: u32) -> Result<Text, Refusal>
    ensures { answered result ≡ text_at s.now at width }
{
    if !call_ok(width, 0) {
        return Err(Refusal::BadCall);
    }
    if s.len() <= at {
        return Err(Refusal::UnexpectedEnd);
    }
    if huffman(s[at], width) {
        return Err(Refusal::HuffmanString);
    }
    plain_at(s, at, width)
}
