// A look at a table's record or at its arena, and the arena's bytes overwritten.
use crate::record::Record;
use dynamic::Table;
use script::answer::Answer;
use script::calls::LookCall;
use script::input::Command;
use script::text::Hex;
use std::io;
use std::io::Write;

// Bytes from a place on are overwritten, as far as there are any.
fn overwrite(arena: &mut [u8], at: usize, s: &[u8]) {
    for (byte, given) in arena.iter_mut().skip(at).zip(s) {
        *byte = *given;
    }
}

// Some of the bytes from a place on, as far as there are any.
fn bytes_from(arena: &[u8], at: usize, len: usize) -> &[u8] {
    let rest = arena.get(at..).unwrap_or(&[]);
    rest.get(..len).unwrap_or(rest)
}

pub fn look<W: Write>(
    call: LookCall,
    c: &Command,
    table: &Table,
    arena: &mut [u8],
    out: &mut W,
) -> io::Result<()> {
    let [at, len, ..] = c.numbers.map(|number| number as usize);
    let answer = Answer::DONE;
    match call {
        LookCall::Show => write!(out, "{answer}{}", Record { table, arena }),
        LookCall::WriteArena => {
            overwrite(arena, at, c.name);
            write!(out, "{answer}")
        }
        LookCall::ReadArena => write!(out, "{answer} 0x{}", Hex(bytes_from(arena, at, len))),
    }
}
