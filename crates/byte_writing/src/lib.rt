// A stretch of bytes, copied into a buffer: one copy for the writers of strings, of static entries and of sections.
#![tactic(auto)]

ghost use Rattle.std.specs.Prelude.{◌≡◌, ◌+◌, ◌≤◌, leb, length, take, drop};
ghost use Rattle.std.proofs.lemmas.List.Edits.{sets};
ghost use Rattle.answers.specs.Write.{Writes};
ghost use Rattle.byte_writing.specs.Stretch.{stretch_of};

use answers::Refusal;

// Whether the len places from start on are all among the first size; no sum that could wrap.
fn inside(size: usize, start: usize, len: usize) -> bool
    ensures { result ≡ leb (start + len) size }
{
    if size < len {
        return false;
    }
    start <= size - len
}

// A stretch of bytes, copied into a buffer.
pub fn write(
    buf: &mut [u8],
    at: usize,
    from: &[u8],
    start: usize,
    len: usize,
) -> Result<usize, Refusal>
    ensures { Writes (stretch_of from.now start len) buf.old at result buf.new }
{
    if !inside(from.len(), start, len) {
        return Err(Refusal::BadCall);
    }
    if !inside(buf.len(), at, len) {
        return Err(Refusal::OutputFull);
    }
    // By a loop: `copy_from_slice` would have the archive for C need `memmove` from outside.
    for (k, &byte) in from[start..start + len].iter().enumerate() {
        buf[at + k] = byte;
    }
    Ok(at + len)
}
