// Prefix integers, RFC 7541 5.1: a value that starts in the low bits of a byte and goes on, where it
// does not fit there, in groups of 7 bits, lowest first.
#![tactic(auto)]

ghost use Rattle.std.specs.Prelude.{◌≡◌, ◌<◌, drop};
ghost use Rattle.answers.specs.Answer.{answered};
ghost use Rattle.prefix_int.specs.Integer.{groups, int_at};

use answers::Refusal;
// The writing half stands in a crate of its own, so that an edit of one half checks that half alone.
pub use int_writing::{call_ok, size, write};

// An integer that was read: the bits above its prefix, its value, and the position past it.
#[derive(Clone, Copy)]
pub struct Integer {
    pub flags: u8,
    pub value: u64,
    pub next: usize,
}

// The groups that follow a full prefix.
fn rest(s: &[u8], from: usize, flags: u8, first: u64) -> Result<Integer, Refusal>
    requires { first < 256 }
    ensures { answered result ≡ groups 9 (drop from s.now) flags from 0 first }
{
    let mut at = from;
    let mut weight: u64 = 1;
    let mut value = first;
    // nine groups at most; the position goes with them, since the first may lie past the slice
    for group in 0..9u32 {
        if s.len() <= at {
            return Err(Refusal::UnexpectedEnd);
        }
        let b = s[at] as u64;
        if b < 128 {
            return Ok(Integer {
                flags,
                value: value + b * weight,
                next: at + 1,
            });
        }
        value += (b % 128) * weight;
        weight *= 128;
        at += 1;
    }
    Err(Refusal::Overflow)
}

// The integer at a position, with a prefix of width bits.
pub fn read(s: &[u8], at: usize, width: u32) -> Result<Integer, Refusal>
    ensures { answered result ≡ int_at s.now at width }
{
    if !call_ok(width, 0) {
        return Err(Refusal::BadCall);
    }
    if s.len() <= at {
        return Err(Refusal::UnexpectedEnd);
    }
    let p = 1u64 << width;
    let b = s[at] as u64;
    let flags = (b / p) as u8;
    let low = b % p;
    if low < p - 1 {
        return Ok(Integer {
            flags,
            value: low,
            next: at + 1,
        });
    }
    rest(s, at + 1, flags, p - 1)
}
