// A script's calls on integers, strings, the static table, indexes, kinds and refusals, and those of single instructions and field lines.
#![tactic(auto)]

pub mod kinds;
mod questions;
mod readers;
mod writers;

use answers::Refusal;
pub use readers::cut_or;
use script::answer::Values;
use script::calls::LeafCall;
use script::input::Command;

// A number cut to the 32 bits of a width.
fn width(number: u64) -> u32 {
    (number & 0xffff_ffff) as u32
}

// A number cut to a byte.
fn low_byte(number: u64) -> u8 {
    (number & 0xff) as u8
}

// Makes a call, with an output buffer where it is a writer's.
pub fn call(leaf: LeafCall, c: &Command, buffer: &mut [u8]) -> Result<Values, Refusal> {
    match leaf {
        LeafCall::Read(reader) => readers::read(reader, c),
        LeafCall::Write(writer) => writers::write(writer, c, buffer).map(Values::from),
        LeafCall::Ask(question) => questions::ask(question, c),
    }
}
