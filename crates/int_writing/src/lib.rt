// The octets of a prefix integer, RFC 7541 5.1: how many there are, and their writing.
#![tactic(auto)]

ghost use Rattle.std.specs.Prelude.{◌≡◌, ◌+◌, ◌-◌, ◌*◌, ◌^◌, ◌≤◌, ◌<◌, length};
ghost use Rattle.std.proofs.lemmas.List.Edits.{sets};
ghost use Rattle.answers.specs.Answer.{answered};
ghost use Rattle.answers.specs.Write.{Writes};
ghost use Rattle.int_writing.specs.Octets.{spell, encode, int_bytes, good_call, size_of};

use answers::Refusal;

// The first value that no writer takes.
const VALUE_LIMIT: u64 = 0x8000_0000_0000_0000;

// 2 to the k.
fn power(k: u32) -> u64
    requires { k ≤ 8 }
    ensures { (result ≡ 2 ^ k) × (1 ≤ result) × (result ≤ 256) }
{
    1u64 << k
}

// How many bytes the groups of a rest take.
fn spelled(rest: u64) -> usize
    requires { rest < 2 ^ 63 }
    ensures { (result ≡ length (spell 8 rest)) × (result ≤ 10) }
{
    if rest < 128 {
        return 1;
    }
    let bits = 64 - u64::leading_zeros(rest);
    ((bits + 6) / 7) as usize
}

// How many bytes a value takes.
fn bytes_of(value: u64, width: u32) -> usize
    requires { (width ≤ 8) × (value < 2 ^ 63) }
    ensures { (result ≡ length (encode width 0 value)) × (result ≤ 11) }
{
    let top = power(width) - 1;
    if value < top {
        return 1;
    }
    1 + spelled(value - top)
}

// Whether a width is within 1..=8 and flags fit above a prefix of that width.
pub fn call_ok(width: u32, flags: u8) -> bool
    ensures { result ≡ good_call width flags }
{
    if width < 1 {
        return false;
    }
    if 8 < width {
        return false;
    }
    (flags as u64) < power(8 - width)
}

// How many bytes an integer takes, before any is written.
pub fn size(value: u64, width: u32) -> Result<usize, Refusal>
    ensures { answered result ≡ size_of width value }
{
    if !call_ok(width, 0) {
        return Err(Refusal::BadCall);
    }
    if VALUE_LIMIT <= value {
        return Err(Refusal::CountTooLarge);
    }
    Ok(bytes_of(value, width))
}

// The groups of a rest, written from a position.
fn put(buf: &mut [u8], from: usize, rest: u64)
    requires { (rest < 2 ^ 63) × (from + length (spell 8 rest) ≤ length buf.old) }
    ensures { buf.new ≡ sets buf.old from (spell 8 rest) }
{
    let mut at = from;
    let mut i = rest;
    // RFC 7541 5.1's own loop: it lowers a value, and the position goes with that
    while 128 <= i {
        buf[at] = (i % 128 + 128) as u8;
        i /= 128;
        at += 1;
    }
    buf[at] = i as u8;
}

// An integer's bytes, written from a position: the flags, the width, the value and the room are right.
fn store(buf: &mut [u8], at: usize, width: u32, flags: u64, value: u64)
    requires { (width ≤ 8) × (flags < 2 ^ (8 - width)) × (value < 2 ^ 63) × (at + length (encode width flags value) ≤ length buf.old) }
    ensures { buf.new ≡ sets buf.old at (encode width flags value) }
{
    let p = power(width);
    let top = p - 1;
    if value < top {
        buf[at] = (flags * p + value) as u8;
        return;
    }
    buf[at] = (flags * p + top) as u8;
    put(buf, at + 1, value - top);
}

// An integer with flags above its prefix, in the shortest form: the width and the flags are whatever the caller says.
pub fn write(buf: &mut [u8], at: usize, width: u32, flags: u8, value: u64) -> Result<usize, Refusal>
    ensures { Writes (int_bytes width flags value) buf.old at result buf.new }
{
    if !call_ok(width, flags) {
        return Err(Refusal::BadCall);
    }
    if VALUE_LIMIT <= value {
        return Err(Refusal::CountTooLarge);
    }
    let n = bytes_of(value, width);
    if buf.len() < n {
        return Err(Refusal::OutputFull);
    }
    if buf.len() - n < at {
        return Err(Refusal::OutputFull);
    }
    store(buf, at, width, flags as u64, value);
    Ok(at + n)
}
