// Strings in the lent arena: a ring of its first RING bytes, in which a string that reaches the end goes on at the front.
#![tactic(auto)]

ghost use Rattle.std.specs.Prelude.{◌≡◌, false, cond, length};
ghost use Rattle.answers.specs.Write.{Writes};
ghost use Rattle.field.specs.Field.{same};
ghost use Rattle.arena.specs.Ring.{long_enough, ring_read, ring_write, ring_move, ring_cut};

use answers::Refusal;

// How many bytes of the arena the ring takes.
pub const RING: usize = 16384;

// A string, written from a position on. A short arena stays as it is.
pub fn write(arena: &mut [u8], at: usize, s: &[u8])
    ensures { arena.new ≡ cond (long_enough arena.old) (ring_write arena.old at s.now) arena.old }
{
    if arena.len() < RING {
        return;
    }
    let mut q = at % RING;
    for &byte in s {
        arena[q] = byte;
        q = (q + 1) % RING;
    }
}

// Whether the bytes from a position on are those of a string. In a short arena they are not.
pub fn is_at(arena: &[u8], at: usize, s: &[u8]) -> bool
    ensures { result ≡ cond (long_enough arena.now) (same s.now (ring_read arena.now at (length s.now))) false }
{
    if arena.len() < RING {
        return false;
    }
    let mut p = at % RING;
    for &byte in s {
        if arena[p] != byte {
            return false;
        }
        p = (p + 1) % RING;
    }
    true
}

// len bytes of the ring, copied to another position, the first byte first. A short arena stays as it is.
pub fn move_bytes(arena: &mut [u8], from: usize, to: usize, len: usize)
    ensures { arena.new ≡ cond (long_enough arena.old) (ring_move len arena.old from to) arena.old }
{
    if arena.len() < RING {
        return;
    }
    let mut p = from % RING;
    let mut q = to % RING;
    for _ in 0..len {
        arena[q] = arena[p];
        p = (p + 1) % RING;
        q = (q + 1) % RING;
    }
}

// len bytes of the ring, copied to a buffer.
pub fn copy(
    arena: &[u8],
    from: usize,
    len: usize,
    buf: &mut [u8],
    at: usize,
) -> Result<usize, Refusal>
    ensures { Writes (ring_cut arena.now from len) buf.old at result buf.new }
{
    if arena.len() < RING {
        return Err(Refusal::BadCall);
    }
    if buf.len() < at {
        return Err(Refusal::OutputFull);
    }
    if buf.len() - at < len {
        return Err(Refusal::OutputFull);
    }
    let end = at + len;
    let mut p = from % RING;
    for place in &mut buf[at..end] {
        *place = arena[p];
        p = (p + 1) % RING;
    }
    Ok(end)
}
