// A script's commands, each handed to the crate that makes its call.
#![tactic(auto)]

ghost use Rattle.std.specs.Prelude.{◌<◌, ◌≤◌, length};

use answers::Refusal;
use dynamic::Table;
use script::answer::{Answer, Values};
use script::calls::Opcode;
use script::input::{ARENA, Command, TABLES};
use script::session::{Calls, Stop};
use std::io;
use std::io::Write;

// A table with its arena.
#[derive(Clone, Copy)]
struct Side {
    table: Table,
    arena: [u8; ARENA],
}

// The tables of a script.
#[derive(Clone, Copy)]
pub struct Sides([Side; TABLES]);

// Writes an answer.
fn say<W: Write, V: Into<Values>>(out: &mut W, answer: Result<V, Refusal>) -> io::Result<()> {
    let answer = Answer::from(answer);
    write!(out, "{answer}")
}

impl Sides {
    // At the start each table is fresh, and each arena zero.
    pub fn new() -> Sides {
        let side = Side {
            table: Table::fresh(),
            arena: [0; ARENA],
        };
        Sides([side; TABLES])
    }

    // Whether two tables are the same, each with its arena.
    fn compared(&self, c: &Command) -> Values {
        let one = &self.0[c.table];
        let other = &self.0[other_of(c)];
        script_compare::compare(&one.table, &one.arena, &other.table, &other.arena)
    }
}

// The other table that a command names.
fn other_of(c: &Command) -> usize
    ensures { result < 4 }
{
    (c.numbers[0] % 4) as usize
}

// A call on one table with the part of its arena that is lent.
fn on_table<W: Write>(
    c: &Command,
    table: &mut Table,
    arena: &mut [u8],
    buffer: &mut [u8],
    out: &mut W,
) -> Result<(), Stop>
    requires { c.now.lent ≤ length arena.old }
{
    let arena = &mut arena[..c.lent];
    match c.opcode {
        Opcode::Table(call) => {
            let answer = script_table::call(call, c, table, arena, buffer);
            write!(out, "{answer}")?;
        }
        Opcode::Look(call) => script_show::look(call, c, table, arena, out)?,
        Opcode::SetField => {
            script_edit::set(c, table)?;
            say(out, Ok(()))?;
        }
        Opcode::Line(call) => say(out, script_readers::read_on(call, c, &table.ring))?,
        Opcode::Section(call) => script_table::on_section(call, c, table, arena, buffer, out)?,
        Opcode::Arena(call) => say(out, script_parts::on_arena(call, c, arena, buffer))?,
        Opcode::Ask(question) => say(out, Ok(script_parts::ask(question, c, table, arena)))?,
        Opcode::Change(change) => say(out, Ok(script_parts::change(change, c, table, arena)))?,
        // what takes no table, or two, is made by `make`
        _ => {}
    }
    Ok(())
}

fn on_side<W: Write>(
    c: &Command,
    side: &mut Side,
    buffer: &mut [u8],
    out: &mut W,
) -> Result<(), Stop> {
    on_table(c, &mut side.table, &mut side.arena, buffer, out)
}

impl Calls for Sides {
    fn make<W: Write>(&mut self, c: &Command, buffer: &mut [u8], out: &mut W) -> Result<(), Stop> {
        match c.opcode {
            Opcode::CopyTable => {
                let copied = self.0[other_of(c)];
                self.0[c.table] = copied;
                say(out, Ok(()))?;
            }
            Opcode::CompareTables => say(out, Ok(self.compared(c)))?,
            Opcode::Capacity => say(out, script_table::capacity(c))?,
            Opcode::PushReply => say(out, script_table::push_reply(c))?,
            Opcode::LookupOf => say(out, Ok(script_table::lookup_of(c)))?,
            Opcode::Read(call) => say(out, script_readers::read(call, c))?,
            Opcode::Stateless(call) => script_table::stateless(call, c, buffer, out)?,
            Opcode::Leaf(call) => say(out, script_leaves::call(call, c, buffer))?,
            _ => on_side(c, &mut self.0[c.table], buffer, out)?,
        }
        Ok(())
    }
}
