// The writing of plain strings, RFC 7541 5.2: how many bytes one takes, and its H bit, length and bytes.
#![tactic(auto)]

ghost use Rattle.std.specs.Prelude.{◌≡◌, true, ◌+◌, ◌≤◌, length};
ghost use Rattle.std.proofs.lemmas.List.Edits.{sets};
ghost use Rattle.answers.specs.Answer.{answered};
ghost use Rattle.answers.specs.Write.{Writes};
ghost use Rattle.text_writing.specs.Plain.{good_text, plain, text_bytes, text_size};

use answers::Refusal;

// Whether a width is good for a length, and flags fit above the length and H.
pub fn call_ok(width: u32, flags: u8) -> bool
    ensures { result ≡ good_text width flags }
{
    if !prefix_int::call_ok(width, 0) {
        return false;
    }
    prefix_int::call_ok(width + 1, flags)
}

// How many bytes a string of len bytes takes, before any is written.
pub fn size(len: usize, width: u32, flags: u8) -> Result<usize, Refusal>
    ensures { answered result ≡ text_size width flags len }
{
    if !call_ok(width, flags) {
        return Err(Refusal::BadCall);
    }
    let head = prefix_int::size(len as u64, width)?;
    Ok(head + len)
}

// A string, written from a position: the call is good, and there is room.
fn store(buf: &mut [u8], at: usize, width: u32, flags: u8, text: &[u8])
    requires { (good_text width flags ≡ true) × (at + length (plain width flags text.now) ≤ length buf.old) }
    ensures { buf.new ≡ sets buf.old at (plain width flags text.now) }
{
    let length = text.len() as u64;
    let start = prefix_int::write(buf, at, width, flags * 2, length).unwrap();
    byte_writing::write(buf, start, text, 0, text.len()).unwrap();
}

// A string with flags above its H bit, which is not set.
pub fn write(
    buf: &mut [u8],
    at: usize,
    width: u32,
    flags: u8,
    text: &[u8],
) -> Result<usize, Refusal>
    ensures { Writes (text_bytes width flags text.now) buf.old at result buf.new }
{
    let n = size(text.len(), width, flags)?;
    if buf.len() < n {
        return Err(Refusal::OutputFull);
    }
    if buf.len() - n < at {
        return Err(Refusal::OutputFull);
    }
    store(buf, at, width, flags, text);
    Ok(at + n)
}
