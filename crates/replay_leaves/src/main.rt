// A script of calls that need no table, on standard input, with an answer line for each: `replay` for the leaves alone.
#![tactic(auto)]

use script::answer::Answer;
use script::calls::Opcode;
use script::faults::Fault;
use script::input::Command;
use script::session;
use script::session::{Calls, Stop};
use std::io::Write;

#[derive(Drop)]
struct Leaves;

impl Calls for Leaves {
    // A call that needs a table is none here.
    fn make<W: Write>(&mut self, c: &Command, buffer: &mut [u8], out: &mut W) -> Result<(), Stop> {
        let Opcode::Leaf(leaf) = c.opcode else {
            return Err(Stop::BadInput(Fault::UnknownOpcode));
        };
        let answer = Answer::from(script_leaves::call(leaf, c, buffer));
        write!(out, "{answer}")?;
        Ok(())
    }
}

fn main(rt: HostRuntime) {
    session::run_to_end(rt.stdin(), &mut Leaves, rt.stdout())
}
